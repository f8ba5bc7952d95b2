//! Reads the words that clap matched.

ghost use Rattle.std.specs.Prelude.{◌≡◌, ◌≢◌, ℕ, ◌↔◌, List, [], map, slice_index_or, IfOk, IsTrue, Some};
ghost use Rattle.clap.specs.Words.{found_of, rows_of};
ghost use Rattle.stair_conf.specs.Rows.{HasCounted, HasGeometry, HasMethodWord, HasNameWord, HasNewVolume, HasNumberWord, HasNumberWords, HasTextWord, HasThreeNumbers, HasVolumeBlocks};
ghost use Rattle.stair_conf.specs.Words.{AreNumbers, BeginsNumber, IsNumber, IsText, method_word};
ghost use Rattle.stair_conf.specs.declared.job.Method.{Method};

use crate::{Method, Name, Numbers, WordsFault};
use clap::ArgMatches;
use stair_super::Label;
use std::alloc::Global;

// The numbers of a geometry's words.
#[derive(Drop)]
pub(crate) struct GeometryNumbers {
    pub(crate) n: u64,
    pub(crate) m: u64,
    pub(crate) r: u64,
    pub(crate) e: Numbers,
}

// A number, and a count.
#[derive(Clone, Copy)]
pub(crate) struct Counted {
    pub(crate) number: u64,
    pub(crate) count: u64,
}

// The name of a volume, and how many blocks it gets.
#[derive(Clone, Copy)]
pub(crate) struct NewVolume {
    pub(crate) name: Name,
    pub(crate) blocks: u64,
}

// Blocks of a volume.
#[derive(Clone, Copy)]
pub(crate) struct VolumeBlocks {
    pub(crate) name: Name,
    pub(crate) block: u64,
    pub(crate) count: u64,
}

// Reads the numbers N, M, R and E.
pub(crate) fn geometry_of(
    alloc: Global,
    matches: &ArgMatches<'_>,
) -> Result<GeometryNumbers, WordsFault>
    ensures ok { IfOk result (λ g. HasGeometry (rows_of (found_of matches.now)) g.n g.m g.r g.e) }
    ensures usage { result ≡ Err WordsFault.Usage → (n m r : ℕ) (e : List ℕ)
        → HasGeometry (rows_of (found_of matches.now)) n m r e → ⊥ }
    ensures memory { result ≡ Err WordsFault.Memory →
        HasThreeNumbers (rows_of (found_of matches.now)) }
{
    Ok(GeometryNumbers {
        n: number_of(matches, "N").ok_or(WordsFault::Usage)?,
        m: number_of(matches, "M").ok_or(WordsFault::Usage)?,
        r: number_of(matches, "R").ok_or(WordsFault::Usage)?,
        e: numbers_of(alloc, matches, "E")?,
    })
}

// Reads the numbers NUMBER and COUNT. It takes no memory.
pub(crate) fn counted_of(matches: &ArgMatches<'_>) -> Result<Counted, WordsFault>
    ensures ok { IfOk result (λ read. HasCounted (rows_of (found_of matches.now)) read.number read.count) }
    ensures usage { result ≡ Err WordsFault.Usage → (number count : ℕ)
        → HasCounted (rows_of (found_of matches.now)) number count → ⊥ }
    ensures memory { result ≢ Err WordsFault.Memory }
{
    Ok(Counted {
        number: number_of(matches, "NUMBER").ok_or(WordsFault::Usage)?,
        count: number_of(matches, "COUNT").ok_or(WordsFault::Usage)?,
    })
}

// Reads the name NAME and the number BLOCKS, which is at least 1. It takes no memory.
pub(crate) fn new_volume_of(matches: &ArgMatches<'_>) -> Result<NewVolume, WordsFault>
    ensures ok { IfOk result (λ read. HasNewVolume (rows_of (found_of matches.now))
        read.name read.blocks) }
    ensures usage { result ≡ Err WordsFault.Usage → (name : List ℕ) (blocks : ℕ)
        → HasNewVolume (rows_of (found_of matches.now)) name blocks → ⊥ }
    ensures memory { result ≢ Err WordsFault.Memory }
{
    let name = name_of(matches, "NAME").ok_or(WordsFault::Usage)?;
    let blocks = number_of(matches, "BLOCKS").ok_or(WordsFault::Usage)?;
    if blocks == 0 {
        return Err(WordsFault::Usage);
    }
    Ok(NewVolume { name, blocks })
}

// Reads the name NAME and the numbers BLOCK and COUNT. It takes no memory.
pub(crate) fn volume_blocks_of(matches: &ArgMatches<'_>) -> Result<VolumeBlocks, WordsFault>
    ensures ok { IfOk result (λ read. HasVolumeBlocks (rows_of (found_of matches.now))
        read.name read.block read.count) }
    ensures usage { result ≡ Err WordsFault.Usage → (name : List ℕ) (block count : ℕ)
        → HasVolumeBlocks (rows_of (found_of matches.now)) name block count → ⊥ }
    ensures memory { result ≢ Err WordsFault.Memory }
{
    Ok(VolumeBlocks {
        name: name_of(matches, "NAME").ok_or(WordsFault::Usage)?,
        block: number_of(matches, "BLOCK").ok_or(WordsFault::Usage)?,
        count: number_of(matches, "COUNT").ok_or(WordsFault::Usage)?,
    })
}

// Reads the name, exactly where the first word of this id is one.
pub(crate) fn name_of(matches: &ArgMatches<'_>, id: &str) -> Option<Name>
    ensures { (name : List ℕ) → (result ≡ Some name)
        ↔ HasNameWord (rows_of (found_of matches.now)) id.now name }
{
    Name::new(matches.get_str(id)?.as_bytes())
}

// Reads the method, exactly where the first word of this id is its own.
pub(crate) fn method_of(matches: &ArgMatches<'_>, id: &str) -> Option<Method>
    ensures { (method : Method) → (result ≡ Some method)
        ↔ HasMethodWord (rows_of (found_of matches.now)) id.now method }
{
    read_method(matches.get_str(id)?)
}

// Reads the text, exactly where the first word of this id is one.
pub(crate) fn text_of(matches: &ArgMatches<'_>, id: &str) -> Option<Label>
    ensures { (text : List ℕ) → (result ≡ Some text)
        ↔ HasTextWord (rows_of (found_of matches.now)) id.now text }
{
    read_text(matches.get_str(id)?)
}

// Reads the number, exactly where the first word of this id is its own.
pub(crate) fn number_of(matches: &ArgMatches<'_>, id: &str) -> Option<u64>
    ensures { (n : ℕ) → (result ≡ Some n) ↔ HasNumberWord
        (rows_of (found_of matches.now)) id.now n }
{
    read_number(matches.get_str(id)?)
}

// Reads each word of this id as a number.
fn numbers_of(alloc: Global, matches: &ArgMatches<'_>, id: &str) -> Result<Numbers, WordsFault>
    ensures ok { IfOk result (HasNumberWords (rows_of (found_of matches.now)) id.now) }
    ensures usage { result ≡ Err WordsFault.Usage → (numbers : List ℕ)
        → HasNumberWords (rows_of (found_of matches.now)) id.now numbers → ⊥ }
{
    read_numbers(alloc, matches.get_raw(id).ok_or(WordsFault::Usage)?)
}

// Reads the word METHOD.
fn read_method(word: &str) -> Option<Method>
    ensures { (method : Method) → (result ≡ Some method) ↔ (word.now ≡ method_word method) }
{
    match word {
        "standard" => Some(Method::Standard),
        "up" => Some(Method::Up),
        "down" => Some(Method::Down),
        "fewest" => Some(Method::Fewest),
        _ => None,
    }
}

// Reads the word TEXT.
fn read_text(word: &str) -> Option<Label>
    ensures { (text : List ℕ) → (result ≡ Some text) ↔ ((word.now ≡ text) × IsText text) }
{
    let label = Label::new(word.as_bytes())?;
    if label.bytes().is_empty() {
        None
    } else {
        Some(label)
    }
}

// Reads each word as a number.
fn read_numbers(alloc: Global, words: &[&str]) -> Result<Numbers, WordsFault>
    ensures ok { IfOk result (AreNumbers (map (λ word. word.now) words.now)) }
    ensures usage { result ≡ Err WordsFault.Usage
        → (numbers : List ℕ) → AreNumbers (map (λ word. word.now) words.now) numbers → ⊥ }
    ensures memory { result ≡ Err WordsFault.Memory → (n : ℕ)
        × IsNumber (slice_index_or (map (λ word. word.now) words.now) 0 []) n }
{
    let mut numbers = Vec::new(alloc);
    for word in words {
        numbers.push(read_number(word).ok_or(WordsFault::Usage)?)?;
    }
    Ok(Numbers::new(numbers))
}

/// Reads a number, exactly where the word is its decimal text, with no sign and no leading zero, and it is below 2^64.
pub fn read_number(word: &str) -> Option<u64>
    ensures { (n : ℕ) → (result ≡ Some n) ↔ IsNumber word.now n }
{
    if begins_number(word.as_bytes()) {
        word.parse().ok()
    } else {
        None
    }
}

// Whether a digit comes first, and a zero only alone.
fn begins_number(word: &[u8]) -> bool
    ensures { IsTrue result ↔ BeginsNumber word.now }
{
    matches!(word, [b'0'] | [b'1'..=b'9', ..])
}
