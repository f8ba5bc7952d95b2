ghost use Rattle.std.specs.Prelude.{◌≡◌, ◌≢◌, ◌⊎◌, ℕ, List, ◌↔◌, IfOk, IfErr, IsTrue, IsUtf8, None, Some};
ghost use Rattle.stair_model.specs.Geometry.{IsFirstBrokenUnder, IsSmall, IsWithinLimits, geometry_of};
ghost use Rattle.stair_conf.specs.Config.{BeginsNumbers, HasIdentity, HasNumber, HasNumbers, SaysLarge, SizeBy, TableReadsAs, TakesMemory, TextReadsAs, name_of, number};
ghost use Rattle.toml.specs.Data.{get_member};
ghost use Rattle.toml.specs.Errors.{IsBlank};
ghost use Rattle.toml.specs.View.{table_view, view};

use crate::{ConfigFault, Key};
use hex::FromHex;
use stair_base::{Geometry, GeometryFault};
use std::alloc::Global;
use toml::{Table, Value};

/// Reads the geometry of an array: a TOML table with the keys `n`, `m`, `r`, `e`, `stripes` and `id`.
///
/// `n`, `m`, `r` and `stripes` are whole numbers and `e` is an array of such; none is negative. `id` is a string of 32
/// hexadecimal digits, in either case. With `large = true` the geometry may be any of [`Geometry::large`], and else only one
/// of [`Geometry::new`]. Other keys are ignored, and so is `large` with another value. The faults come in this order, unless memory runs out before
/// one is known, which is only where the bytes are text in UTF-8, and not of blanks and comments alone:
///
/// 1. `NotToml`: the bytes are no text in UTF-8, or toml refuses the text. It refuses a whole number of 2^63 or more, or below
///    -2^63, under whatever key.
/// 2. `Key`: the first key, in the order above, that is missing or has another kind of value. A negative number is one.
/// 3. `Limit`: the first limit of that function that is broken. An empty array for `e` breaks limit 4.
pub fn read_config(alloc: Global, text: &[u8]) -> Result<Geometry, ConfigFault>
    ensures answer { result ≢ Err ConfigFault.Memory → TextReadsAs text.now result }
    ensures memory { result ≡ Err ConfigFault.Memory → IsUtf8 text.now × ¬ IsBlank text.now }
{
    let Ok(text) = str::from_utf8(text) else {
        return Err(ConfigFault::NotToml);
    };
    read_table(alloc, &toml::table_from_str(alloc, text)?)
}

// Reads the geometry that a table has. Memory is taken for the numbers at the key `e` alone.
fn read_table(alloc: Global, table: &Table) -> Result<Geometry, ConfigFault>
    ensures answer { result ≢ Err ConfigFault.Memory →
        TableReadsAs (table_view table.now) result }
    ensures memory { result ≡ Err ConfigFault.Memory → TakesMemory (table_view table.now) }
{
    let n = number_at(table, Key::N)?;
    let m = number_at(table, Key::M)?;
    let r = number_at(table, Key::R)?;
    let e = numbers_at(alloc, table, Key::E)?;
    read_rest(table, n, m, r, e.as_slice())
}

// Reads the geometry after the numbers that were read.
fn read_rest(table: &Table, n: u64, m: u64, r: u64, e: &[u64]) -> Result<Geometry, ConfigFault>
    requires n { HasNumber (table_view table.now) Key.N n }
    requires m { HasNumber (table_view table.now) Key.M m }
    requires r { HasNumber (table_view table.now) Key.R r }
    requires e { HasNumbers (table_view table.now) Key.E e.now }
    ensures { TableReadsAs (table_view table.now) result }
{
    let stripes = number_at(table, Key::Stripes)?;
    let id = identity_at(table, Key::Id)?;
    Ok(geometry_by(table, n, m, r, e, stripes, id)?)
}

// The geometry of these numbers, which is a large one only where the table lets it be one.
fn geometry_by(
    table: &Table,
    n: u64,
    m: u64,
    r: u64,
    e: &[u64],
    stripes: u64,
    id: [u8; 16],
) -> Result<Geometry, GeometryFault>
    ensures ok { let g = geometry_of n m r e.now stripes id in IfOk result (λ geometry.
        (geometry ≡ g) × IsWithinLimits g × (SaysLarge (table_view table.now) ⊎ IsSmall g)) }
    ensures err { let g = geometry_of n m r e.now stripes id in IfErr result (λ fault.
        IsFirstBrokenUnder (SizeBy (table_view table.now) g) g fault.limit) }
{
    if says_large(table) {
        Geometry::large(n, m, r, e, stripes, id)
    } else {
        Geometry::new(n, m, r, e, stripes, id)
    }
}

// Whether the array may be a large one.
fn says_large(table: &Table) -> bool
    ensures { IsTrue result ↔ SaysLarge (table_view table.now) }
{
    match table.get("large") {
        Some(value) => value.as_bool().unwrap_or(false),
        None => false,
    }
}

// The whole number at a key.
fn number_at(table: &Table, key: Key) -> Result<u64, ConfigFault>
    ensures ok { IfOk result (HasNumber (table_view table.now) key) }
    ensures faulty { IfErr result (λ fault. (fault ≡ ConfigFault.Key key)
        × ((n : ℕ) → ¬ HasNumber (table_view table.now) key n)) }
{
    whole_number(value_at(table, key)?).ok_or(ConfigFault::Key(key))
}

// The whole numbers of the array at a key.
fn numbers_at(alloc: Global, table: &Table, key: Key) -> Result<Vec<u64>, ConfigFault>
    ensures ok { IfOk result (λ numbers. HasNumbers (table_view table.now) key numbers.items) }
    ensures faulty { IfErr result (λ fault. fault ≢ ConfigFault.Memory →
        (fault ≡ ConfigFault.Key key)
        × ((numbers : List ℕ) → ¬ HasNumbers (table_view table.now) key numbers)) }
    ensures memory { result ≡ Err ConfigFault.Memory → BeginsNumbers (table_view table.now) key }
{
    let values = value_at(table, key)?
        .as_array()
        .ok_or(ConfigFault::Key(key))?;
    let mut numbers = Vec::new(alloc);
    for value in values {
        numbers.push(whole_number(value).ok_or(ConfigFault::Key(key))?)?;
    }
    Ok(numbers)
}

// The sixteen bytes that the digits at a key spell.
fn identity_at(table: &Table, key: Key) -> Result<[u8; 16], ConfigFault>
    ensures ok { IfOk result (HasIdentity (table_view table.now) key) }
    ensures faulty { IfErr result (λ fault. (fault ≡ ConfigFault.Key key)
        × ((id : List ℕ) → ¬ HasIdentity (table_view table.now) key id)) }
{
    let digits = value_at(table, key)?.as_str().ok_or(ConfigFault::Key(key))?;
    <[u8; 16]>::from_hex(digits).map_err(|_| ConfigFault::Key(key))
}

// The value at a key.
fn value_at(table: &Table, key: Key) -> Result<&Value, ConfigFault>
    ensures ok { IfOk result (λ value. get_member (name_of key) (table_view table.now)
        ≡ Some (view value.now)) }
    ensures faulty { IfErr result (λ fault. (fault ≡ ConfigFault.Key key)
        × (get_member (name_of key) (table_view table.now) ≡ None)) }
{
    table.get(key.name()).ok_or(ConfigFault::Key(key))
}

// The number, exactly where the value is a whole number that isn't negative.
fn whole_number(value: &Value) -> Option<u64>
    ensures { (n : ℕ) → (result ≡ Some n) ↔ (view value.now ≡ number n) }
{
    u64::try_from(value.as_integer()?).ok()
}
