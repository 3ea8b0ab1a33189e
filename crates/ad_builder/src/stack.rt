// A stack of items, of which contracts see the last one first.
use pool_text::OutOfMemory;
use std::alloc::Global;
use std::marker::Model;

/// A stack, which contracts see as the list of its items, the last one first.
#[derive(Drop)]
pub struct Stack<T> {
    items: Vec<T>,
}

impl<T> Model for Stack<T> {
    ghost use Rattle.std.specs.Prelude.{List, reverse};

    ghost Value = { List T };

    ghost view = { λ s. reverse s.items.items };
}

impl<T: Drop> Stack<T> {
    ghost use Rattle.std.specs.Prelude.{◌≡◌, ◌∷◌, [], IfSome, None, Some, OnOk, slice_get, slice_set};
    ghost use Rattle.std.specs.Bool.{Decides};
    ghost use Rattle.std.specs.Borrow.{LendsIf, sem};
    ghost use Rattle.ad_builder.specs.contracts.stack.Stack.{the_row};

    /// No items.
    pub fn new(alloc: Global) -> Stack<T>
        ensures { result ≡ [] }
    {
        Stack {
            items: Vec::new(alloc),
        }
    }

    /// Adds an item, which is then the last.
    #[inline(always)]
    pub fn push(&mut self, item: T) -> Result<(), OutOfMemory>
        ensures { OnOk result (self.new ≡ item ∷ self.old) }
    {
        if self.items.len() < self.items.capacity() {
            self.items.push_reserved(item);
            return Ok(());
        }
        self.push_growing(item)
    }

    // Most items find room, so what makes room stands apart.
    #[cold]
    #[inline(never)]
    fn push_growing(&mut self, item: T) -> Result<(), OutOfMemory>
        ensures { OnOk result (self.new ≡ item ∷ self.old) }
    {
        self.items.push(item)?;
        Ok(())
    }

    /// Takes the last item.
    pub fn pop(&mut self) -> Option<T>
        ensures some { IfSome result (λ item. self.old ≡ item ∷ self.new) }
        ensures none { result ≡ None → (self.old ≡ []) × (self.new ≡ []) }
    {
        self.items.pop()
    }

    /// The last item, which stays.
    pub fn last(&self) -> Option<&T>
        ensures some { IfSome result (λ item. slice_get self.now 0 ≡ Some item.now) }
        ensures none { result ≡ None → self.now ≡ [] }
    {
        self.items.last()
    }

    /// The last item, which may be changed where it is.
    pub fn last_mut(&mut self) -> Option<&mut T>
        ensures* lends { sem 𝓛 (LendsIf (the_row T.row) T.row self.entry result (slice_set self.old 0) self.old) }
        ensures some { IfSome result (λ item. slice_get self.old 0 ≡ Some item.now) }
        ensures none { result ≡ None → self.old ≡ [] }
    {
        self.items.last_mut()
    }

    /// Whether there are no items.
    pub fn is_empty(&self) -> bool
        ensures { Decides result (self.now ≡ []) }
    {
        self.items.is_empty()
    }
}
