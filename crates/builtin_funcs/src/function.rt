// The functions by name.
ghost use Rattle.std.specs.Prelude.{◌≡◌, ◌==◌, length, map, filter};
ghost use Rattle.std.specs.Str.{bytes_eq};
ghost use Rattle.pool_text.specs.Folding.{folded};
ghost use Rattle.builtin_funcs.specs.Functions.{function_in, function_named, function_names, takes};

use pool_text::same_folded;

/// The functions of the language, as the ClassAd Language Reference Manual 2.4 names them.
#[derive(Clone, Copy)]
pub(crate) enum Function {
    Sum,
    Min,
    Max,
    Int,
    Size,
    Bool,
    Time,
    IsList,
    Member,
    Strcat,
    Substr,
    Strcmp,
    String,
    IsError,
    Stricmp,
    ToUpper,
    ToLower,
    IsString,
    IsInteger,
    IsBoolean,
    IsClassad,
    IfThenElse,
    AnyCompare,
    AllCompare,
    IsUndefined,
    StringListSize,
    IdenticalMember,
    StringListMember,
}

impl Function {
    /// Whether the function takes so many arguments.
    pub(crate) fn takes(self, count: usize) -> bool
        ensures { result ≡ takes self count }
    {
        match self {
            Function::Time => count == 0,
            Function::Strcat => true,
            Function::StringListSize => count == 1 || count == 2,
            Function::Substr | Function::StringListMember => count == 2 || count == 3,
            Function::Member | Function::IdenticalMember | Function::Strcmp | Function::Stricmp =>
                count == 2,
            Function::AnyCompare | Function::AllCompare | Function::IfThenElse => count == 3,
            _ => count == 1,
        }
    }
}

// The names by their lengths, so that few are compared.
const OF_3: [(&[u8], Function); 4] = [
    (b"sum", Function::Sum),
    (b"min", Function::Min),
    (b"max", Function::Max),
    (b"int", Function::Int),
];

const OF_4: [(&[u8], Function); 3] = [
    (b"size", Function::Size),
    (b"bool", Function::Bool),
    (b"time", Function::Time),
];

const OF_6: [(&[u8], Function); 6] = [
    (b"isList", Function::IsList),
    (b"member", Function::Member),
    (b"strcat", Function::Strcat),
    (b"substr", Function::Substr),
    (b"strcmp", Function::Strcmp),
    (b"string", Function::String),
];

const OF_7: [(&[u8], Function); 4] = [
    (b"isError", Function::IsError),
    (b"stricmp", Function::Stricmp),
    (b"toUpper", Function::ToUpper),
    (b"toLower", Function::ToLower),
];

const OF_8: [(&[u8], Function); 1] = [(b"isString", Function::IsString)];

const OF_9: [(&[u8], Function); 3] = [
    (b"isInteger", Function::IsInteger),
    (b"isBoolean", Function::IsBoolean),
    (b"isClassad", Function::IsClassad),
];

const OF_10: [(&[u8], Function); 3] = [
    (b"ifThenElse", Function::IfThenElse),
    (b"anyCompare", Function::AnyCompare),
    (b"allCompare", Function::AllCompare),
];

const OF_11: [(&[u8], Function); 1] = [(b"isUndefined", Function::IsUndefined)];

const OF_14: [(&[u8], Function); 1] = [(b"stringListSize", Function::StringListSize)];

const OF_15: [(&[u8], Function); 1] = [(b"identicalMember", Function::IdenticalMember)];

const OF_16: [(&[u8], Function); 1] = [(b"stringListMember", Function::StringListMember)];

/// The function of a name, in which capital and small letters are the same.
pub(crate) fn function_named(name: &[u8]) -> Option<Function>
    ensures { result ≡ function_named name.now }
{
    function_in(names_of_length(name.len()), name)
}

fn names_of_length(n: usize) -> &'static [(&'static [u8], Function)]
    ensures { map (λ k. (k.0.now, k.1)) result.now
        ≡ filter (λ entry. length entry.0 == n) function_names }
{
    match n {
        3 => &OF_3,
        4 => &OF_4,
        6 => &OF_6,
        7 => &OF_7,
        8 => &OF_8,
        9 => &OF_9,
        10 => &OF_10,
        11 => &OF_11,
        14 => &OF_14,
        15 => &OF_15,
        16 => &OF_16,
        _ => &[],
    }
}

// The first function of the table whose name is the same.
fn function_in(mut table: &[(&[u8], Function)], name: &[u8]) -> Option<Function>
    ensures { result ≡ function_in (map (λ k. (k.0.now, k.1)) table.entry.now) name.now }
{
    while let [entry, rest @ ..] = table {
        if same_name(entry.0, name) {
            return Some(entry.1);
        }
        table = rest;
    }
    None
}

fn same_name(a: &[u8], b: &[u8]) -> bool
    ensures { result ≡ bytes_eq (folded a.now) (folded b.now) }
{
    same_folded(a, b)
}
