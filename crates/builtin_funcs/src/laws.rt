// Laws of the definitions, each on a function that does nothing.
ghost use Rattle.std.specs.Prelude.{◌≡◌, ◌==◌, ◌∷◌, [], ℕ, List, map, codes, IsTrue};
ghost use Rattle.std.specs.List.{concat, join_with_byte, list_all, list_any};
ghost use Rattle.pool_text.specs.Folding.{folded};
ghost use Rattle.ad_value.specs.Plain.{integer, text};
ghost use Rattle.ad_value.specs.Limits.{bounded};
ghost use Rattle.builtin_funcs.specs.Calls.{call_value};
ghost use Rattle.builtin_funcs.specs.Texts.{is_item, items_of};

/// `int` reads the Integer back from the text that `string` writes.
pub fn int_reads_what_string_writes(n: i64, moment: u64)
    ensures { call_value (codes "int") (call_value (codes "string") (integer n ∷ []) moment ∷ []) moment ≡ integer n }
{}

/// What is taken for an item of a string list is one or more bytes without a delimiter, and such texts, joined by a
/// delimiter, are the items again.
pub fn joined_items_are_items(list: &[u8], delimiters: &[u8], delimiter: u8)
    ensures items { IsTrue (list_all (is_item delimiters.now) (items_of delimiters.now list.now)) }
    ensures joined { (texts : List (List ℕ))
        → IsTrue (list_any (λ d. d == delimiter) delimiters.now)
        → IsTrue (list_all (is_item delimiters.now) texts)
        → items_of delimiters.now (join_with_byte delimiter texts) ≡ texts }
{}

/// `strcat` of texts is the texts one behind the other.
pub fn strcat_joins_texts(moment: u64)
    ensures { (texts : List (List ℕ))
        → call_value (codes "strcat") (map text texts) moment ≡ bounded (text (concat texts)) }
{}

/// `toLower` is the folding by which names are compared.
pub fn to_lower_is_folding(bytes: &[u8], moment: u64)
    ensures { call_value (codes "toLower") (text bytes.now ∷ []) moment
        ≡ bounded (text (folded bytes.now)) }
{}
