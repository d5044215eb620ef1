//! Words of the command line as they may be printed.

ghost use Rattle.std.specs.Prelude.{◌≡◌, true, false, map, string_bytes, IfOk};
ghost use Rattle.std.specs.Char.{is_control};
ghost use Rattle.edge_real.specs.Plain as plain;

use std::alloc::{AllocError, Global};

/// The words, each with a question mark in the place of each control character.
pub fn plain_words(alloc: Global, words: &[String]) -> Result<Vec<String>, AllocError>
    ensures plain { IfOk result (λ printed. map string_bytes printed.items ≡ map (λ word. plain.plain (string_bytes word)) words.now) }
{
    let mut plain = Vec::new(alloc);
    for word in words {
        plain.push(plain_word(alloc, word)?)?;
    }
    Ok(plain)
}

/// A word with a question mark in the place of each control character.
fn plain_word(alloc: Global, word: &str) -> Result<String, AllocError>
    ensures plain { IfOk result (λ printed. string_bytes printed ≡ plain.plain word.now) }
{
    let mut plain = String::new(alloc);
    for letter in word.chars() {
        plain.push(plain_letter(letter))?;
    }
    Ok(plain)
}

/// The letter, or a question mark where it is a control character.
fn plain_letter(letter: char) -> char
    ensures letter { result ≡ plain.plain_letter letter }
    ensures plain { is_control result ≡ false }
    ensures same { is_control letter ≡ false → result ≡ letter }
    ensures mark { is_control letter ≡ true → result ≡ 63 }
{
    if letter.is_control() { '?' } else { letter }
}
