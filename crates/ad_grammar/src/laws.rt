// Laws of the definitions, each on a function that does nothing.
ghost use Rattle.std.specs.Prelude.{◌≡◌, true, List, Some, IsSome};
ghost use Rattle.pool_text.specs.Folding.{folded};
ghost use Rattle.ad_lexer.specs.Marks.{marks, meaning_of};
ghost use Rattle.ad_lexer.specs.Symbols.{is_symbol};
ghost use Rattle.ad_lexer.specs.Words.{is_reserved};
ghost use Rattle.ad_tree.specs.Inline.{Inline, Defs, inner};
ghost use Rattle.ad_grammar.specs.Grammar.{IsExpr, IsAd, IsRoot};
ghost use Rattle.ad_grammar.specs.Made.{IsMade, AreMade};
ghost use Rattle.ad_grammar.specs.Rules.{parsed_expr, parsed_ad};
ghost use Rattle.ad_grammar.specs.Words.{Word, reserved_words};

/// No words spell two trees: an expression groups in one way, and so does an ad.
pub fn words_spell_one_tree()
    ghost words: { List Word }
    ensures expression { (x y : Inline) → IsExpr words x → IsExpr words y → x ≡ y }
    ensures ad { (ds es : Defs) → IsAd words ds → IsAd words es → ds ≡ es }
{}

/// Reading words from the left, rule by rule, gives the tree that the grammar has for them, and nothing where the grammar
/// has none.
pub fn words_are_read_by_the_grammar()
    ghost words: { List Word }
    ensures expression_read { (x : Inline) → IsExpr words x → parsed_expr words ≡ Some x }
    ensures expression_spelled { (x : Inline) → parsed_expr words ≡ Some x → IsExpr words x }
    ensures ad_read { (ds : Defs) → IsAd words ds → parsed_ad words ≡ Some (inner ds) }
    ensures ad_spelled { (x : Inline) → parsed_ad words ≡ Some x → IsRoot words x }
{}

/// Each symbol of the lexer is a mark, and each reserved word in any case is a literal or an operator.
pub fn symbols_and_reserved_words_have_meanings(bytes: &[u8])
    ensures symbol { is_symbol bytes.now ≡ true → IsSome (meaning_of marks bytes.now) }
    ensures reserved_word { is_reserved bytes.now ≡ true → IsSome (meaning_of reserved_words (folded bytes.now)) }
{}

/// The tree of words that can stand in a text has the form that every parsed tree has.
pub fn words_make_parsed_trees()
    ghost words: { List Word }
    ensures expression { (x : Inline) → AreMade words → IsExpr words x → IsMade x }
    ensures ad { (x : Inline) → AreMade words → IsRoot words x → IsMade x }
{}
