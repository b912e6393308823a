// What may have been meant by a word.
use std::alloc::{AllocError, Global};
use strsim::osa_distance;

/// The name that is nearest to a word, the first of several, if one is near. A third of the word's bytes, or one, may
/// be other ones, missing, too many, or exchanged with the next. Dashes before both do not count, nor does the case of
/// ASCII letters. Memory may run out.
pub fn nearest(
    alloc: Global,
    word: &str,
    names: &[&'static str],
) -> Result<Option<&'static str>, AllocError> {
    let word = bare(alloc, word)?;
    nearest_to(alloc, word.as_str(), names)
}

// The name that is nearest to a bare word, the first of several, if one is near. Memory may run out.
fn nearest_to(
    alloc: Global,
    word: &str,
    names: &[&'static str],
) -> Result<Option<&'static str>, AllocError> {
    let mut least = word.len().max(3) / 3;
    let mut found = None;
    for name in names {
        let distance = distance(alloc, word, name)?;
        if distance < least || (found.is_none() && distance == least) {
            least = distance;
            found = Some(*name);
        }
    }
    Ok(found)
}

// How far a name is from a bare word. Memory may run out.
fn distance(alloc: Global, word: &str, name: &str) -> Result<usize, AllocError> {
    let name = bare(alloc, name)?;
    osa_distance(alloc, word, name.as_str())
}

// The word in lower case, without the dashes before it. Memory may run out.
fn bare(alloc: Global, word: &str) -> Result<String, AllocError> {
    word.trim_start_matches('-').to_ascii_lowercase(alloc)
}
