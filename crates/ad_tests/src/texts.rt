// The tokens of a text, and the printed text of an expression.
use ad_lexer::{Token, lex};
use ad_parser::parse_expr;
use ad_printer::print_expr;
use std::process::Abort;
use std::test::Fail;

fn assert_token(rt: &impl Abort, token: Token, text: &[u8], start: u32, end: u32) {
    assert_eq!(rt; token.text, text);
    assert_eq!(rt; (token.start, token.end), (start, end));
}

#[test]
fn tokens_are_slices(rt: HostRuntime) -> Result<(), Fail> {
    let tokens = lex(rt.alloc(), b"Memory >= 2048")?;
    assert!(rt; tokens.len() == 3);
    assert_token(&rt, tokens.at(0), b"Memory", 0, 6);
    assert_token(&rt, tokens.at(1), b">=", 7, 9);
    assert_token(&rt, tokens.at(2), b"2048", 10, 14);
    Ok(())
}

#[test]
fn an_expression_is_printed(rt: HostRuntime) -> Result<(), Fail> {
    let phrase = parse_expr(rt.alloc(), b"[a=(b)].A+(c-(d))")?;
    let text = print_expr(rt.alloc(), &phrase.ad, &phrase.expr)?;
    assert_eq!(rt; text.bytes(), b"[ a = b ].A + (c - d)".as_slice());
    Ok(())
}
