//! A use of a packet that stands in one word, as messages tell it.

ghost use Rattle.std.specs.Prelude.{◌≡◌, ◌++◌, IfOk, IfSome, List, [], ◌∷◌, None, false, map, string_bytes, true, ℕ};
ghost use Rattle.irp_view.specs.Joined.{ArePut, IsJoined, IsPut, names_packet};

use crate::spans::number;
use std::alloc::{AllocError, Global};

/// The slot and the use number in a word `SLOT.USE`, as messages tell a use of a packet.
fn halves(word: &str) -> Option<(&str, &str)>
    ensures found { IfSome result (λ found. IsJoined word.now found.0.now found.1.now) }
    ensures none { result ≡ None → (slot use_no : List ℕ) → IsJoined word.now slot use_no → ⊥ }
{
    let (slot, use_no) = word.split_once('.')?;
    let is_slot = number(slot).is_some();
    let is_use = number(use_no).is_some();
    if is_slot && is_use {
        Some((slot, use_no))
    } else {
        None
    }
}

/// The same, where the word may name a use.
fn halves_if(word: &str, may_name: bool) -> Option<(&str, &str)>
    ensures found { IfSome result
        (λ found. (may_name ≡ true) × IsJoined word.now found.0.now found.1.now) }
    ensures none { result ≡ None → may_name ≡ true → (slot use_no : List ℕ)
        → IsJoined word.now slot use_no → ⊥ }
{
    if may_name {
        return halves(word);
    }
    None
}

/// Whether the word behind this one may name a use of a packet.
fn names_packet(word: &str) -> bool
    ensures { result ≡ names_packet word.now }
{
    word == "packet" || word == "--packet"
}

/// Puts a word behind these. The one error is want of memory.
fn put_whole(words: &mut Vec<String>, word: &str) -> Result<(), AllocError>
    ensures { IfOk result (λ done. map string_bytes words.new.items
        ≡ map string_bytes words.old.items ++ (word.now ∷ [])) }
{
    let alloc = *words.allocator();
    words.push(word.to_string(alloc)?)?;
    Ok(())
}

/// Puts a word behind these, in two where it names a use of a packet and may. The one error is want of memory.
fn put_word(words: &mut Vec<String>, word: &str, may_name: bool) -> Result<(), AllocError>
    ensures { IfOk result (λ done. (put : List (List ℕ)) × IsPut may_name word.now put
        × (map string_bytes words.new.items ≡ map string_bytes words.old.items ++ put)) }
{
    match halves_if(word, may_name) {
        Some((slot, use_no)) => {
            put_whole(words, slot)?;
            put_whole(words, use_no)
        }
        None => put_whole(words, word),
    }
}

/// These words, where a use that is named as SLOT.USE behind `packet` or `--packet` is two words. The one error is want
/// of memory.
pub fn with_uses(alloc: Global, words: &[String]) -> Result<Vec<String>, AllocError>
    ensures { IfOk result (λ parted. ArePut false (map string_bytes words.now) (map string_bytes parted.items)) }
{
    let mut parted = Vec::new(alloc);
    let mut may_name = false;
    for word in words {
        put_word(&mut parted, word.as_str(), may_name)?;
        may_name = names_packet(word.as_str());
    }
    Ok(parted)
}
