// The centred lattices: letters, points, classes of translations modulo the lattice, and the rotations that map it onto itself.
// Ported from data/centering.rs of moyo 0.21.0 (`Centering`, `lattice_points`), and changed: points in twelfths, no primitive cells.
#![tactic(auto)]

ghost use Rattle.std.specs.Prelude.{◌≡◌, ◌<◌, ◌≤◌};
ghost use Rattle.laws.specs.Distinct.{has};
ghost use Rattle.laws.specs.Lattice.{same_triple, rank, unrank};
ghost use Rattle.laws.specs.Residue.{◌⊕◌};
ghost use Rattle.laws.specs.LatticeMaps.{keeps_points};
ghost use Rattle.operation.specs.Meaning.{matrix_of};
ghost use Rattle.centering.specs.Keeps.{keeps_of};
ghost use Rattle.centering.specs.Letters.{byte_of, letter_of, points_of};
ghost use Rattle.centering.specs.Lattices.{triple_of, translation_of, lattice_points_of, smallest_of, difference_of, contains_of, congruent_of};

use operation::product::rotated;
use operation::rotation_type::{Handedness, identify_handedness};
use operation::{Rotation, Translation};

// P primitive; A, B, C one face centred; I body centred; R rhombohedral, obverse; F all faces centred; H the triple hexagonal cell.
#[derive(Clone, Copy)]
pub enum Centering {
    P,
    A,
    B,
    C,
    I,
    R,
    F,
    H,
}

// The points of a letter, count of them; the rest of the four is (0,0,0) again.
// `lattice_points` is public and answers this by its clause, so a count stands beside an array.
#[derive(Clone, Copy)]
pub struct LatticePoints {
    pub count: usize,
    pub points: [Translation; 4],
}

const ORIGIN: Translation = Translation { x: 0, y: 0, z: 0 };

impl Centering {
    #[tactic(auto, unfolding(crate::specs::Letters::letter_of, crate::specs::Letters::letter_among))]
    pub fn from_byte(byte: u8) -> Option<Centering>
        ensures { result ≡ letter_of byte }
    {
        match byte {
            b'P' => Some(Centering::P),
            b'A' => Some(Centering::A),
            b'B' => Some(Centering::B),
            b'C' => Some(Centering::C),
            b'I' => Some(Centering::I),
            b'R' => Some(Centering::R),
            b'F' => Some(Centering::F),
            b'H' => Some(Centering::H),
            _ => None,
        }
    }

    pub fn byte(self) -> u8
        ensures { result ≡ byte_of self }
    {
        match self {
            Centering::P => b'P',
            Centering::A => b'A',
            Centering::B => b'B',
            Centering::C => b'C',
            Centering::I => b'I',
            Centering::R => b'R',
            Centering::F => b'F',
            Centering::H => b'H',
        }
    }

    #[tactic(auto, unfolding(crate::specs::Lattices::lattice_points_of, laws::specs::Lattice::filled))]
    pub fn lattice_points(self) -> LatticePoints
        ensures points { result ≡ lattice_points_of self }
        ensures counted { (1 ≤ result.count) × (result.count ≤ 4) }
    {
        match self {
            Centering::P => LatticePoints {
                count: 1,
                points: [ORIGIN, ORIGIN, ORIGIN, ORIGIN],
            },
            Centering::A => LatticePoints {
                count: 2,
                points: [ORIGIN, Translation { x: 0, y: 6, z: 6 }, ORIGIN, ORIGIN],
            },
            Centering::B => LatticePoints {
                count: 2,
                points: [ORIGIN, Translation { x: 6, y: 0, z: 6 }, ORIGIN, ORIGIN],
            },
            Centering::C => LatticePoints {
                count: 2,
                points: [ORIGIN, Translation { x: 6, y: 6, z: 0 }, ORIGIN, ORIGIN],
            },
            Centering::I => LatticePoints {
                count: 2,
                points: [ORIGIN, Translation { x: 6, y: 6, z: 6 }, ORIGIN, ORIGIN],
            },
            Centering::R => LatticePoints {
                count: 3,
                points: [
                    ORIGIN,
                    Translation { x: 8, y: 4, z: 4 },
                    Translation { x: 4, y: 8, z: 8 },
                    ORIGIN,
                ],
            },
            Centering::F => LatticePoints {
                count: 4,
                points: [
                    ORIGIN,
                    Translation { x: 0, y: 6, z: 6 },
                    Translation { x: 6, y: 0, z: 6 },
                    Translation { x: 6, y: 6, z: 0 },
                ],
            },
            Centering::H => LatticePoints {
                count: 3,
                points: [
                    ORIGIN,
                    Translation { x: 8, y: 4, z: 0 },
                    Translation { x: 4, y: 8, z: 0 },
                    ORIGIN,
                ],
            },
        }
    }

    // Whether a translation is in the lattice.
    pub fn contains(self, t: Translation) -> bool
        ensures { result ≡ contains_of self t }
    {
        is_point(self, difference(t, ORIGIN))
    }

    // Whether a rotation has its entries in −1..1 and maps the lattice onto itself.
    #[tactic(auto, unfolding(crate::specs::Keeps::keeps_of))]
    pub fn keeps(self, r: Rotation) -> bool
        ensures { result ≡ keeps_of self r }
    {
        match identify_handedness(r) {
            Handedness::Proper | Handedness::Improper => keeps_points(self, r),
            Handedness::Neither => false,
        }
    }

    // The smallest triple of a translation's class modulo the lattice, compared x first.
    pub fn smallest(self, t: Translation) -> Translation
        ensures { result ≡ smallest_of self t }
    {
        let points = self.lattice_points().points;
        let mut least = moved_rank(t, points[0]);
        for point in &points[1..] {
            least = least.min(moved_rank(t, *point));
        }
        of_rank(least)
    }

    // Whether two translations are in one class modulo the lattice.
    pub fn congruent(self, s: Translation, t: Translation) -> bool
        ensures { result ≡ congruent_of self s t }
    {
        is_point(self, difference(s, t))
    }
}

// s − t modulo 12: −1 is 11.
fn difference(s: Translation, t: Translation) -> Translation
    ensures { result ≡ difference_of s t }
{
    Translation {
        x: ((s.x as u32 + 11 * (t.x as u32)) % 12) as u8,
        y: ((s.y as u32 + 11 * (t.y as u32)) % 12) as u8,
        z: ((s.z as u32 + 11 * (t.z as u32)) % 12) as u8,
    }
}

fn is_point(c: Centering, t: Translation) -> bool
    ensures { result ≡ has same_triple (triple_of t) (points_of c) }
{
    c.lattice_points().points.contains(&t)
}

// Whether a rotation takes points to points. The first point is (0,0,0), which stays.
fn keeps_points(c: Centering, r: Rotation) -> bool
    ensures { result ≡ keeps_points (points_of c) (matrix_of r) }
{
    let found = c.lattice_points();
    let others = &found.points[1..found.count];
    others.iter().all(|p| c.contains(rotated(r, *p)))
}

// The rank of t + p modulo 12: triples below 12 compare as their ranks do, x first.
fn moved_rank(t: Translation, p: Translation) -> u32
    ensures { (result ≡ rank (triple_of t ⊕ triple_of p)) × (result < 1728) }
{
    let x = (t.x as u32 + p.x as u32) % 12;
    let y = (t.y as u32 + p.y as u32) % 12;
    let z = (t.z as u32 + p.z as u32) % 12;
    x * 144 + y * 12 + z
}

#[tactic(auto, unfolding(laws::specs::Lattice::unrank))]
fn of_rank(rank: u32) -> Translation
    requires { rank < 1728 }
    ensures { result ≡ translation_of (unrank rank) }
{
    Translation {
        x: (rank / 144) as u8,
        y: (rank / 12 % 12) as u8,
        z: (rank % 12) as u8,
    }
}
