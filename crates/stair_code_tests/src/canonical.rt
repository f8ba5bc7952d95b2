ghost use Rattle.std.specs.Prelude.{◌≡◌, ◌<◌};
ghost use Rattle.stair_model.specs.Canonical.{canonical_chunks, canonical_rows};

use stair_base::{Geometry, Stripe};
use stair_canon::Canon;
use stair_gf::Steps;
use stair_mds::SYMBOL;
use std::marker::Brand;
use std::process::Abort;
use std::sync::ledger::{Blank, Ledger};
use std::test::Fail;

fn columns(canon: &Canon) -> u8
    ensures { result ≡ canonical_chunks canon.now.geometry }
{
    let geometry = canon.geometry();
    geometry.n() + geometry.classes()
}

fn rows(canon: &Canon) -> u8
    ensures { result ≡ canonical_rows canon.now.geometry }
{
    let geometry = canon.geometry();
    geometry.r() + geometry.e_max()
}

// Extends a chunk on this ledger, and returns one of its symbols.
fn extend<L: Ledger>(blank: Blank, canon: &mut Canon, row: u16, column: u16) -> Option<[u8; SYMBOL]>
    requires name { blank.name ≡ L.name }
    requires parts { blank.parts ≡ L.parts }
    requires some { 0 < L.parts }
    requires row_in { row < canonical_rows canon.old.geometry }
    requires column_in { column < canonical_chunks canon.old.geometry }
{
    let mut steps = Steps::<L>::new(blank);
    canon.extend_chunk(column, &mut steps);
    canon.symbol(row, column).copied()
}

// The same, after a look at the places.
fn extended(rt: &impl Abort, canon: &mut Canon, row: u16, column: u16) -> Option<[u8; SYMBOL]> {
    assert!(rt; row < u16::from(rows(canon)));
    assert!(rt; column < u16::from(columns(canon)));
    extend::<Brand>(Blank::new(1), canon, row, column)
}

// The codeword 01 00 00 F4, 00 00 46 46. Its virtual symbols were made elsewhere from the formula of the column matrix.
#[test]
fn virtual_symbols_of_a_known_stripe(rt: HostRuntime) -> Result<(), Fail> {
    let geometry = Geometry::new(4, 1, 2, &[1], 3, [0; 16])?;
    let mut stripe = Stripe::new(rt.alloc(), &geometry)?;
    stripe.put(0, 0, &[0x01; SYMBOL]);
    stripe.put(0, 3, &[0xF4; SYMBOL]);
    stripe.put(1, 2, &[0x46; SYMBOL]);
    stripe.put(1, 3, &[0x46; SYMBOL]);
    let mut canon = Canon::new(rt.alloc(), &geometry)?;
    canon.load(&stripe);
    for (column, byte) in [(0, 0x8E), (1, 0x00), (2, 0xC9), (3, 0xB3)] {
        let symbol = extended(&rt, &mut canon, 2, column);
        assert_eq!(rt; symbol, Some([byte; SYMBOL]), "{column}");
    }
    Ok(())
}
