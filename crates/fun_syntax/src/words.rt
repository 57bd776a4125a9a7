//! Maps from words. A text chooses its words, and could choose them for a hash: so they are kept in
//! their order.

ghost use Rattle.std.specs.Prelude.{◌≡◌, is_some, IfOk, OnOk};
ghost use Rattle.fun_syntax.specs.Words.{found_in, with_word};

use dactl_base::refusal::Memory;
use std::alloc::Global;
use std::collections::BTreeMap;

/// Enters a word, unless it is there already, and answers whether it was.
///
/// # Errors
///
/// Where memory for the word or its entry is wanting.
pub fn enter<V: Drop>(
    words: &mut BTreeMap<Vec<u8>, V>,
    alloc: Global,
    word: &[u8],
    value: V,
) -> Result<bool, Memory>
    ensures there { IfOk result (λ there. there ≡ is_some (found_in words.old word.now)) }
    ensures added { OnOk result
        (found_in words.new ≡ with_word (found_in words.old) word.now value) }
{
    if words.contains_key(word) {
        return Ok(true);
    }
    let key = Vec::from_slice(alloc, word)?;
    words.insert(key, value)?;
    Ok(false)
}
