ghost use Rattle.std.specs.Prelude.{◌≡◌, ◌+◌, ◌-◌, ◌*◌, ◌<◌, ◌≤◌, ◌↔◌, length, sum, All, IsTrue, IfOk, IfErr, IsOk};
ghost use Rattle.stair_model.specs.Geometry.{IsCoverageVector};
ghost use Rattle.stair_base.specs.Padding.{padded};

use crate::device::BODY_START;
use std::marker::Model;

/// What [`Geometry::new`] and [`Geometry::large`] refuse: the number of the first limit that is broken, 1 to 8.
#[derive(Clone, Copy, Debug, PartialEq, Eq)]
pub struct GeometryFault {
    pub limit: u8,
}

/// The geometry of an array, within the limits of [`Geometry::large`]. The letters are those of Li and Lee, STAIR Codes
/// (FAST 2014).
///
/// A stripe has n chunks, one on each device, and a chunk has r sectors of 512 bytes.
#[derive(Clone, Copy, Debug, PartialEq, Eq)]
pub struct Geometry {
    n: u8,
    m: u8,
    r: u8,
    classes: u8,
    coverage: [u8; 32],
    stripes: u32,
    id: [u8; 16],
}

impl Model for Geometry {
    ghost use Rattle.stair_model.specs.Geometry.{Geometry as Numbers};

    ghost Value = { Numbers };

    ghost use Rattle.stair_base.specs.Stored.{shown, kept, IsStored, kept-shown};

    ghost view = { shown };

    ghost invariant = { IsStored };

    ghost inverse = { kept };

    ghost inverse_ok = { kept-shown };
}

/// Whether each entry is 1 to r, and none is below the one before.
fn is_coverage_vector(e: &[u64], r: u64) -> bool
    ensures { IsTrue result ↔ IsCoverageVector e.now r }
{
    let mut least = 1;
    for x in e {
        if *x < least || *x > r {
            return false;
        }
        least = *x;
    }
    true
}

fn total(e: &[u64]) -> u64
    requires count { length e.now ≤ 32 }
    requires small { All (λ x. x ≤ 32) e.now }
    ensures { result ≡ sum e.now }
{
    let mut sum = 0;
    for x in e {
        sum += *x;
    }
    sum
}

/// The entries, with zeros after them.
fn padded_coverage(e: &[u64]) -> [u8; 32]
    requires count { length e.now ≤ 32 }
    requires small { All (λ x. x ≤ 32) e.now }
    ensures { result ≡ padded e.now }
{
    let mut coverage = [0; 32];
    for (l, x) in e.iter().enumerate() {
        coverage[l] = *x as u8;
    }
    coverage
}

impl Geometry {
    ghost use Rattle.stair_model.specs.Geometry.{geometry_of, HasSize, IsWithinLimits, IsFirstBrokenLimit, IsFirstBrokenUnder, IsSmall, classes, coverage, global_cells, greatest_coverage, data_cells, block_count, sectors_needed};

    /// The small geometry of these numbers: devices, row parities, rows, coverage vector, stripes, and the array's identity.
    ///
    /// Any numbers may be handed in. Where a limit is broken, the answer is the number of the first one:
    ///
    /// 1. 3 <= n <= 32
    /// 2. m >= 1
    /// 3. n > 2m
    /// 4. 1 <= m' <= n-m, where m' is the length of e
    /// 5. 1 <= r <= 32
    /// 6. each entry of e is 1 to r, and none is below the one before
    /// 7. a stripe has a block: r(n-m) is above the sum of e
    /// 8. 1 <= stripes <= 65,536, and n·r·stripes <= 4,194,304
    ///
    /// [`Geometry::large`] takes more stripes.
    pub fn new(
        n: u64,
        m: u64,
        r: u64,
        e: &[u64],
        stripes: u64,
        id: [u8; 16],
    ) -> Result<Geometry, GeometryFault>
        ensures ok { IfOk result (λ geometry. geometry ≡ geometry_of n m r e.now stripes id) }
        ensures within { IsOk result ↔ (IsWithinLimits (geometry_of n m r e.now stripes id)
            × IsSmall (geometry_of n m r e.now stripes id)) }
        ensures err { let g = geometry_of n m r e.now stripes id in
            IfErr result (λ fault. IsFirstBrokenUnder (HasSize g × IsSmall g) g fault.limit) }
    {
        match Self::large(n, m, r, e, stripes, id) {
            Ok(geometry) if !geometry.is_small() => Err(GeometryFault { limit: 8 }),
            answer => answer,
        }
    }

    /// The geometry of these numbers, small or large.
    ///
    /// The limits are those of [`Geometry::new`] but for the last, by which each sector of a device has a number of 32
    /// bits:
    ///
    /// 8. stripes >= 1, and 3 + n·r + stripes·r <= 4,294,967,295
    pub fn large(
        n: u64,
        m: u64,
        r: u64,
        e: &[u64],
        stripes: u64,
        id: [u8; 16],
    ) -> Result<Geometry, GeometryFault>
        ensures ok { IfOk result (λ geometry. geometry ≡ geometry_of n m r e.now stripes id) }
        ensures within { IsOk result ↔ IsWithinLimits (geometry_of n m r e.now stripes id) }
        ensures err { IfErr result (λ fault. IsFirstBrokenLimit (geometry_of n m r e.now stripes id)
            fault.limit) }
    {
        if n < 3 || n > 32 {
            return Err(GeometryFault { limit: 1 });
        }
        if m < 1 {
            return Err(GeometryFault { limit: 2 });
        }
        if m >= n || n - m <= m {
            return Err(GeometryFault { limit: 3 });
        }
        if e.is_empty() || e.len() as u64 > n - m {
            return Err(GeometryFault { limit: 4 });
        }
        if r < 1 || r > 32 {
            return Err(GeometryFault { limit: 5 });
        }
        if !is_coverage_vector(e, r) {
            return Err(GeometryFault { limit: 6 });
        }
        if r * (n - m) <= total(e) {
            return Err(GeometryFault { limit: 7 });
        }
        if stripes < 1 || stripes > 4_294_967_294 || 3 + n * r + stripes * r > 4_294_967_295 {
            return Err(GeometryFault { limit: 8 });
        }
        Ok(Self::from_numbers(n, m, r, e, stripes, id))
    }

    /// The geometry of numbers that keep the limits.
    fn from_numbers(n: u64, m: u64, r: u64, e: &[u64], stripes: u64, id: [u8; 16]) -> Geometry
        requires { IsWithinLimits (geometry_of n m r e.now stripes id) }
        ensures { result ≡ geometry_of n m r e.now stripes id }
    {
        Geometry {
            n: n as u8,
            m: m as u8,
            r: r as u8,
            classes: e.len() as u8,
            coverage: padded_coverage(e),
            stripes: stripes as u32,
            id,
        }
    }

    /// Whether it is the other geometry: the same numbers, and the same identity.
    ///
    /// It stands beside the derived `==`, which answers the same: no contract says so of that one, and
    /// nothing that a proof can cite ties it to equal values.
    pub fn is_same(&self, other: &Geometry) -> bool
        ensures { IsTrue result ↔ (self.now ≡ other.now) }
    {
        if self.n != other.n || self.m != other.m || self.r != other.r {
            return false;
        }
        if self.classes != other.classes || self.stripes != other.stripes {
            return false;
        }
        self.coverage == other.coverage && self.id == other.id
    }

    /// Devices of the array, and chunks of a stripe: 3 to 32.
    pub fn n(&self) -> u8
        ensures value { result ≡ self.now.n }
        ensures limits { IsWithinLimits self.now }
    {
        self.n
    }

    /// Row parities of a stripe: so many whole devices may be lost.
    pub fn m(&self) -> u8
        ensures value { result ≡ self.now.m }
        ensures limits { IsWithinLimits self.now }
    {
        self.m
    }

    /// Rows of a stripe, which is sectors of a chunk: 1 to 32.
    pub fn r(&self) -> u8
        ensures value { result ≡ self.now.r }
        ensures limits { IsWithinLimits self.now }
    {
        self.r
    }

    /// Coverage classes, m': so many further chunks may have lost sectors.
    pub fn classes(&self) -> u8
        ensures value { result ≡ classes self.now }
        ensures limits { IsWithinLimits self.now }
    {
        self.classes
    }

    /// Entry l of the coverage vector, 1 to r: so many sectors of a further chunk may be lost in class l.
    pub fn coverage(&self, l: u8) -> u8
        requires { l < classes self.now }
        ensures value { result ≡ coverage self.now l }
        ensures rows { result ≤ self.now.r }
        ensures limits { IsWithinLimits self.now }
    {
        self.coverage[l as usize]
    }

    /// Global parity cells of a stripe, s: the sum of the coverage vector.
    pub fn s(&self) -> u16
        ensures value { result ≡ global_cells self.now }
        ensures limits { IsWithinLimits self.now }
    {
        let mut sum = 0;
        for l in 0..self.classes as usize {
            sum += u16::from(self.coverage[l]);
        }
        sum
    }

    /// The greatest entry of the coverage vector, which is its last: 1 to r.
    pub fn e_max(&self) -> u8
        ensures value { result ≡ greatest_coverage self.now }
        ensures limits { IsWithinLimits self.now }
    {
        self.coverage(self.classes - 1)
    }

    /// Blocks of a stripe, u = r(n-m) - s: at least 1.
    pub fn u(&self) -> u16
        ensures value { result ≡ data_cells self.now }
        ensures limits { IsWithinLimits self.now }
    {
        u16::from(self.r) * u16::from(self.n - self.m) - self.s()
    }

    /// Whether it is one that [`Geometry::new`] makes: at most 65,536 stripes, and n·r·stripes at most 4,194,304.
    pub fn is_small(&self) -> bool
        ensures value { IsTrue result ↔ IsSmall self.now }
        ensures limits { IsWithinLimits self.now }
    {
        let cells = u64::from(self.n) * u64::from(self.r) * u64::from(self.stripes);
        self.stripes <= 65_536 && cells <= 4_194_304
    }

    /// Stripes of the array: 1 to 4,294,967,289, which limit 8 allows where n is 3 and r is 1.
    pub fn stripes(&self) -> u32
        ensures value { result ≡ self.now.stripes }
        ensures limits { IsWithinLimits self.now }
    {
        self.stripes
    }

    /// Blocks of the array: u of each stripe.
    pub fn blocks(&self) -> u64
        ensures value { result ≡ block_count self.now }
        ensures limits { IsWithinLimits self.now }
    {
        u64::from(self.u()) * u64::from(self.stripes)
    }

    /// Sectors that each device must have at least, 3 + n·r + stripes·r: two superblocks, the gate, the journal's body,
    /// and a chunk of each stripe.
    pub fn need(&self) -> u32
        ensures value { result ≡ sectors_needed self.now }
        ensures limits { IsWithinLimits self.now }
    {
        let rows = u32::from(self.r);
        BODY_START + u32::from(self.n) * rows + self.stripes * rows
    }

    /// The array's identity, sixteen bytes as they were handed in.
    pub fn id(&self) -> [u8; 16]
        ensures value { result ≡ self.now.id }
        ensures limits { IsWithinLimits self.now }
    {
        self.id
    }
}
