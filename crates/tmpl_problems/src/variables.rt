//! The variables in an action, by its tokens.
ghost use Rattle.std.specs.Prelude.{◌≡◌, ◌≤◌, IfOk, length, map};
ghost use Rattle.std.specs.Option.{option_copied};
ghost use Rattle.tmpl_lex.specs.View.{token_of};
ghost use Rattle.tmpl_problems.specs.Tokens as spec;

use std::alloc::{AllocError, Global};
use tmpl_lex::{Token, TokenKind};

/// The name in a variable, after its `$`; `$` alone has none.
pub(crate) fn name_in<'b>(token: &Token<'b>) -> Option<&'b [u8]>
    ensures { option_copied result ≡ spec.variable_name (token_of token.now) }
{
    match token.bytes {
        [b'$', name @ ..] if token.kind == TokenKind::Variable && name.len() > 0 => Some(name),
        _ => None,
    }
}

/// How many tokens stand before the first `:=`; none of it where there is no `:=`.
pub(crate) fn declaration_len(tokens: &[Token<'_>]) -> usize
    ensures value { result ≡ spec.declaration_len (map token_of tokens.now) }
    ensures within { result ≤ length tokens.now }
{
    match tokens
        .iter()
        .position(|token| token.kind == TokenKind::Declare)
    {
        Some(count) => count,
        None => 0,
    }
}

/// The names that an action declares: those before its `:=`.
pub(crate) fn declared_names<'b>(
    alloc: Global,
    tokens: &[Token<'b>],
) -> Result<Vec<&'b [u8]>, AllocError>
    ensures { IfOk result (λ v. map (λ name. name.now) v.items ≡ spec.declared_names (map token_of tokens.now)) }
{
    let (front, _) = tokens.split_at(declaration_len(tokens));
    all_names(alloc, front)
}

/// The names of the variables among tokens.
pub(crate) fn all_names<'b>(
    alloc: Global,
    tokens: &[Token<'b>],
) -> Result<Vec<&'b [u8]>, AllocError>
    ensures { IfOk result (λ v. map (λ name. name.now) v.items ≡ spec.names_of (map token_of tokens.now)) }
{
    let mut names = Vec::new(alloc);
    for token in tokens {
        if let Some(name) = name_in(token) {
            names.push(name)?;
        }
    }
    Ok(names)
}
