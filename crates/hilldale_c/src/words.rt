// The words that the calls stand for.
ghost use Rattle.std.specs.Prelude.{◌≡◌, ◌++◌, ◌∷◌, [], map, string_bytes, IfOk, OnOk};
ghost use Rattle.hilldale_c.specs.Call as spec;

use hd_list::Memory;
use itoa::Buffer;
use std::alloc::Global;

/// `run SURFACE SCRIPT --tile N`.
pub(crate) fn run_words(alloc: Global, tile: u32) -> Result<Vec<String>, Memory>
    ensures { IfOk result (λ words. map string_bytes words.items ≡ spec.run_words tile) }
{
    let mut words = Vec::new(alloc);
    push_word(alloc, &mut words, "run")?;
    push_word(alloc, &mut words, "SURFACE")?;
    push_word(alloc, &mut words, "SCRIPT")?;
    push_word(alloc, &mut words, "--tile")?;
    push_word(alloc, &mut words, Buffer::new().format(tile))?;
    Ok(words)
}

/// `run SURFACE SCRIPT --tile N --save OUT`.
pub(crate) fn save_words(alloc: Global, tile: u32) -> Result<Vec<String>, Memory>
    ensures { IfOk result (λ words. map string_bytes words.items ≡ spec.save_words tile) }
{
    let mut words = run_words(alloc, tile)?;
    push_word(alloc, &mut words, "--save")?;
    push_word(alloc, &mut words, "OUT")?;
    Ok(words)
}

/// `check SURFACE CERT`.
pub(crate) fn check_words(alloc: Global) -> Result<Vec<String>, Memory>
    ensures { IfOk result (λ words. map string_bytes words.items ≡ spec.check_words) }
{
    let mut words = Vec::new(alloc);
    push_word(alloc, &mut words, "check")?;
    push_word(alloc, &mut words, "SURFACE")?;
    push_word(alloc, &mut words, "CERT")?;
    Ok(words)
}

// Adds a word.
fn push_word(alloc: Global, words: &mut Vec<String>, word: &str) -> Result<(), Memory>
    ensures { OnOk result (map string_bytes words.new.items ≡ map string_bytes words.old.items
        ++ word.now ∷ []) }
{
    words.push(String::from_str(alloc, word)?)?;
    Ok(())
}
