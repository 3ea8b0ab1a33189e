// The first word of a line, which says what the command is.
ghost use Rattle.std.specs.Prelude.{◌≡◌, map};
ghost use Rattle.pool_script.specs.Keywords.{keyword_in, keyword_of, opens_block};

/// The words that a command may begin with.
#[derive(Clone, Copy)]
pub(crate) enum Keyword {
    Clock,
    Advertise,
    Withdraw,
    Show,
    List,
    Eval,
    EvalIn,
    Query,
    Submit,
    Remove,
    Priority,
    Gang,
    Negotiate,
    Claim,
    Release,
    Jobs,
    Job,
    Users,
    Why,
    Classes,
    Unlisten,
}

impl Keyword {
    /// Whether the keyword's line begins a block.
    pub(crate) fn opens_block(self) -> bool
        ensures { result ≡ opens_block self }
    {
        matches!(
            self,
            Keyword::Advertise | Keyword::Query | Keyword::Submit | Keyword::Gang
        )
    }
}

const KEYWORDS: [(&[u8], Keyword); 21] = [
    (b"clock", Keyword::Clock),
    (b"advertise", Keyword::Advertise),
    (b"withdraw", Keyword::Withdraw),
    (b"show", Keyword::Show),
    (b"list", Keyword::List),
    (b"eval", Keyword::Eval),
    (b"evalin", Keyword::EvalIn),
    (b"query", Keyword::Query),
    (b"submit", Keyword::Submit),
    (b"remove", Keyword::Remove),
    (b"priority", Keyword::Priority),
    (b"gang", Keyword::Gang),
    (b"negotiate", Keyword::Negotiate),
    (b"claim", Keyword::Claim),
    (b"release", Keyword::Release),
    (b"jobs", Keyword::Jobs),
    (b"job", Keyword::Job),
    (b"users", Keyword::Users),
    (b"why", Keyword::Why),
    (b"classes", Keyword::Classes),
    (b"unlisten", Keyword::Unlisten),
];

/// The first keyword of the table that the word spells.
fn keyword_in(mut table: &[(&[u8], Keyword)], word: &[u8]) -> Option<Keyword>
    ensures { result ≡ keyword_in (map (λ k. (k.0.now, k.1)) table.entry.now) word.now }
{
    while let [entry, rest @ ..] = table {
        if entry.0 == word {
            return Some(entry.1);
        }
        table = rest;
    }
    None
}

/// The keyword that the word spells exactly.
#[tactic(auto, unfolding(crate::specs::Keywords::keyword_of))]
pub(crate) fn keyword_of(word: &[u8]) -> Option<Keyword>
    ensures { result ≡ keyword_of word.now }
{
    keyword_in(&KEYWORDS, word)
}
