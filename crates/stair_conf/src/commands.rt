//! The commands as clap has them: required positional values alone, with neither help nor version.
//!
//! The first of the words represents the program's name, which clap drops.

ghost use Rattle.std.specs.Prelude.{◌≡◌, ℕ, ◌∷◌, [], List, codes, drop, false, true, map, string_bytes, IfOk};
ghost use Rattle.clap.specs.Words.{HasMatchesOf, app_of, fault_of, is_simple_and_free, rule_of, takes};
ghost use Rattle.stair_conf.specs.Commands.{HasNoOption, bare_app, counted_app, geometry_app, name_app, new_volume_app, one_word, slot_app, stripe_app, text_app, volume_blocks_app, with_geometry};
ghost use Rattle.stair_conf.specs.Words.{SpellsCounted, SpellsGeometry, SpellsName, SpellsNewVolume, SpellsSlot, SpellsText, SpellsVolumeBlocks, method_word};
ghost use Rattle.stair_conf.specs.declared.job.Method.{Method};

use crate::matches::{
    Counted, GeometryNumbers, NewVolume, VolumeBlocks, counted_of, geometry_of, method_of, name_of,
    new_volume_of, number_of, text_of, volume_blocks_of,
};
use crate::{Method, Name, WordsFault};
use clap::{Arg, ArgMatches, Command};
use stair_super::Label;
use std::alloc::{AllocError, Global};

// Reads `N M R E..` after the first word.
pub(crate) fn read_geometry(alloc: Global, words: &[String]) -> Result<GeometryNumbers, WordsFault>
    requires { HasNoOption (map string_bytes words.now) }
    ensures ok { IfOk result (λ g. SpellsGeometry []
        (drop 1 (map string_bytes words.now)) g.n g.m g.r g.e) }
    ensures usage { result ≡ Err WordsFault.Usage → (n m r : ℕ) (e : List ℕ)
        → SpellsGeometry [] (drop 1 (map string_bytes words.now)) n m r e → ⊥ }
{
    let matches = parse(geometry_command(alloc)?, words)?;
    geometry_of(alloc, &matches)
}

// Reads `METHOD N M R E..` after the first word.
pub(crate) fn read_stripe(
    alloc: Global,
    words: &[String],
) -> Result<(Method, GeometryNumbers), WordsFault>
    requires { HasNoOption (map string_bytes words.now) }
    ensures ok { IfOk result (λ read. SpellsGeometry (method_word read.0 ∷ [])
        (drop 1 (map string_bytes words.now))
        read.1.n read.1.m read.1.r read.1.e) }
    ensures usage { result ≡ Err WordsFault.Usage → (method : Method) (n m r : ℕ) (e : List ℕ)
        → SpellsGeometry (method_word method ∷ []) (drop 1 (map string_bytes words.now)) n m r e →
        ⊥ }
{
    let matches = parse(stripe_command(alloc)?, words)?;
    let method = method_of(&matches, "METHOD").ok_or(WordsFault::Usage)?;
    Ok((method, geometry_of(alloc, &matches)?))
}

// Reads `NUMBER COUNT` after the first word.
pub(crate) fn read_counted(alloc: Global, words: &[String]) -> Result<Counted, WordsFault>
    requires { HasNoOption (map string_bytes words.now) }
    ensures ok { IfOk result (λ read. SpellsCounted []
        (drop 1 (map string_bytes words.now)) read.number read.count) }
    ensures usage { result ≡ Err WordsFault.Usage → (number count : ℕ)
        → SpellsCounted [] (drop 1 (map string_bytes words.now)) number count → ⊥ }
{
    let matches = parse(counted_command(alloc)?, words)?;
    counted_of(&matches)
}

// Reads `SLOT` after the first word.
pub(crate) fn read_slot(alloc: Global, words: &[String]) -> Result<u64, WordsFault>
    requires { HasNoOption (map string_bytes words.now) }
    ensures ok { IfOk result (SpellsSlot [] (drop 1 (map string_bytes words.now))) }
    ensures usage { result ≡ Err WordsFault.Usage → (slot : ℕ)
        → SpellsSlot [] (drop 1 (map string_bytes words.now)) slot → ⊥ }
{
    let matches = parse(slot_command(alloc)?, words)?;
    number_of(&matches, "SLOT").ok_or(WordsFault::Usage)
}

// Reads `TEXT` after the first word.
pub(crate) fn read_label(alloc: Global, words: &[String]) -> Result<Label, WordsFault>
    requires { HasNoOption (map string_bytes words.now) }
    ensures ok { IfOk result (SpellsText [] (drop 1 (map string_bytes words.now))) }
    ensures usage { result ≡ Err WordsFault.Usage → (text : List ℕ)
        → SpellsText [] (drop 1 (map string_bytes words.now)) text → ⊥ }
{
    let matches = parse(text_command(alloc)?, words)?;
    text_of(&matches, "TEXT").ok_or(WordsFault::Usage)
}

// Reads `NAME` after the first word.
pub(crate) fn read_name(alloc: Global, words: &[String]) -> Result<Name, WordsFault>
    requires { HasNoOption (map string_bytes words.now) }
    ensures ok { IfOk result (SpellsName [] (drop 1 (map string_bytes words.now))) }
    ensures usage { result ≡ Err WordsFault.Usage → (name : List ℕ)
        → SpellsName [] (drop 1 (map string_bytes words.now)) name → ⊥ }
{
    let matches = parse(name_command(alloc)?, words)?;
    name_of(&matches, "NAME").ok_or(WordsFault::Usage)
}

// Reads `NAME BLOCKS` after the first word.
pub(crate) fn read_new_volume(alloc: Global, words: &[String]) -> Result<NewVolume, WordsFault>
    requires { HasNoOption (map string_bytes words.now) }
    ensures ok { IfOk result (λ read. SpellsNewVolume []
        (drop 1 (map string_bytes words.now)) read.name read.blocks) }
    ensures usage { result ≡ Err WordsFault.Usage → (name : List ℕ) (blocks : ℕ)
        → SpellsNewVolume [] (drop 1 (map string_bytes words.now)) name blocks → ⊥ }
{
    let matches = parse(new_volume_command(alloc)?, words)?;
    new_volume_of(&matches)
}

// Reads `NAME BLOCK COUNT` after the first word.
pub(crate) fn read_volume_blocks(
    alloc: Global,
    words: &[String],
) -> Result<VolumeBlocks, WordsFault>
    requires { HasNoOption (map string_bytes words.now) }
    ensures ok { IfOk result (λ read. SpellsVolumeBlocks []
        (drop 1 (map string_bytes words.now)) read.name read.block read.count) }
    ensures usage { result ≡ Err WordsFault.Usage → (name : List ℕ) (block count : ℕ)
        → SpellsVolumeBlocks [] (drop 1 (map string_bytes words.now)) name block count → ⊥ }
{
    let matches = parse(volume_blocks_command(alloc)?, words)?;
    volume_blocks_of(&matches)
}

// Matches the words to the values of the command.
fn parse<'a>(command: Command<'a>, words: &'a [String]) -> Result<ArgMatches<'a>, WordsFault>
    ensures ok { IfOk result (HasMatchesOf (app_of command.entry)
        (map string_bytes words.entry.now)) }
    ensures no_fault { IfOk result (λ _. is_simple_and_free (app_of command.entry) ≡ true
        → fault_of (app_of command.entry) (map string_bytes words.entry.now) ≡ []) }
    ensures usage { result ≡ Err WordsFault.Usage
        → takes (app_of command.entry) (map string_bytes words.entry.now) ≡ true → ⊥ }
{
    Ok(command.try_get_matches_from(words)?)
}

// `N M R E..`
fn geometry_command<'a>(alloc: Global) -> Result<Command<'a>, AllocError>
    ensures { IfOk result (λ command. app_of command ≡ geometry_app) }
{
    with_geometry(alloc, bare(alloc))
}

// `METHOD N M R E..`
fn stripe_command<'a>(alloc: Global) -> Result<Command<'a>, AllocError>
    ensures { IfOk result (λ command. app_of command ≡ stripe_app) }
{
    with_geometry(alloc, bare(alloc).arg(one_word(alloc, "METHOD"))?)
}

// `NUMBER COUNT`
fn counted_command<'a>(alloc: Global) -> Result<Command<'a>, AllocError>
    ensures { IfOk result (λ command. app_of command ≡ counted_app) }
{
    bare(alloc)
        .arg(one_word(alloc, "NUMBER"))?
        .arg(one_word(alloc, "COUNT"))
}

// `SLOT`
fn slot_command<'a>(alloc: Global) -> Result<Command<'a>, AllocError>
    ensures { IfOk result (λ command. app_of command ≡ slot_app) }
{
    bare(alloc).arg(one_word(alloc, "SLOT"))
}

// `TEXT`
fn text_command<'a>(alloc: Global) -> Result<Command<'a>, AllocError>
    ensures { IfOk result (λ command. app_of command ≡ text_app) }
{
    bare(alloc).arg(one_word(alloc, "TEXT"))
}

// `NAME`
fn name_command<'a>(alloc: Global) -> Result<Command<'a>, AllocError>
    ensures { IfOk result (λ command. app_of command ≡ name_app) }
{
    bare(alloc).arg(one_word(alloc, "NAME"))
}

// `NAME BLOCKS`
fn new_volume_command<'a>(alloc: Global) -> Result<Command<'a>, AllocError>
    ensures { IfOk result (λ command. app_of command ≡ new_volume_app) }
{
    name_command(alloc)?.arg(one_word(alloc, "BLOCKS"))
}

// `NAME BLOCK COUNT`
fn volume_blocks_command<'a>(alloc: Global) -> Result<Command<'a>, AllocError>
    ensures { IfOk result (λ command. app_of command ≡ volume_blocks_app) }
{
    name_command(alloc)?
        .arg(one_word(alloc, "BLOCK"))?
        .arg(one_word(alloc, "COUNT"))
}

// The command with the words of a geometry after those that it has.
fn with_geometry<'a>(alloc: Global, command: Command<'a>) -> Result<Command<'a>, AllocError>
    ensures { IfOk result (λ whole. app_of whole ≡ with_geometry (app_of command.entry)) }
{
    command
        .arg(one_word(alloc, "N"))?
        .arg(one_word(alloc, "M"))?
        .arg(one_word(alloc, "R"))?
        .arg(one_word(alloc, "E").num_args(1..))
}

// A command with no words.
fn bare<'a>(alloc: Global) -> Command<'a>
    ensures { app_of result ≡ bare_app (codes "stair") }
{
    Command::new(alloc, "stair")
        .disable_help_flag(true)
        .disable_version_flag(true)
}

// A required positional of one word.
fn one_word<'a>(alloc: Global, id: &'a str) -> Arg<'a>
    ensures rule { rule_of result ≡ one_word id.entry.now }
    ensures local { result.global ≡ false }
{
    Arg::new(alloc, id).required(true)
}
