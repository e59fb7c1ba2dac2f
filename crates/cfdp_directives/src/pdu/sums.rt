ghost use Rattle.std.specs.Prelude.{◌≡◌, ℕ, ◌+◌, ◌^◌, ◌<◌, ◌++◌, [], true, List, length, Option};
ghost use Rattle.std.specs.Prelude.{Some, None};
ghost use Rattle.crc.specs.Pieces.{Piece, Cuts};
ghost use Rattle.cfdp_directives.specs.Pdu.Checksum.{checksum_of};
ghost use Rattle.cfdp_directives.specs.Pdu.Sums as words;
ghost use Rattle.cfdp_directives.specs.Pdu.Sums.{nothing_summed, summed, all_summed, sum_told};
ghost use Rattle.cfdp_directives.specs.Pdu.Sums.{AreSumsOf, SumsFit};
ghost use Rattle.cfdp_directives.specs.declared.pdu.sums.Checksums.{Checksums};

use crate::pdu::checksum::Checksum;
use crate::pdu::codes::ChecksumKind;
use crc::{Crc32, FileCheck};

/// What is kept of the pieces of a file that came, for its checksum of each known type. Pieces may
/// come in any order, each octet once. If it is known which type will be asked for, a piece costs
/// the work of that one type.
#[derive(Clone, Copy, Debug, PartialEq, Eq)]
pub struct Checksums {
    modular: Checksum,
    proximity: FileCheck,
    castagnoli: FileCheck,
    ieee: FileCheck,
}

impl Checksums {
    /// Returns what is kept before any octet came.
    #[tactic(auto, unfolding(crate::specs::Pdu::Sums::nothing_summed))]
    pub fn new() -> Checksums
        ensures is { result ≡ nothing_summed }
        ensures fits { SumsFit result }
    {
        let sums = Checksums {
            modular: Checksum::new(),
            proximity: FileCheck::new(Crc32::Proximity1),
            castagnoli: FileCheck::new(Crc32::Castagnoli),
            ieee: FileCheck::new(Crc32::Ieee),
        };
        sums.fit();
        sums
    }

    /// Adds a piece of the file: octets, the first of them at this offset. It counts for the
    /// checksum of the type `wanted`; if that is `None`, it counts for the checksums of all types.
    #[tactic(auto, unfolding(crate::specs::Pdu::Sums::summed))]
    pub fn add(&mut self, wanted: Option<ChecksumKind>, offset: u64, bytes: &[u8])
        requires { offset + length bytes.now < 2 ^ 64 }
        ensures is { self.new
            ≡ summed wanted self.old (record { offset = offset; bytes = bytes.now }) }
        ensures fits { SumsFit self.new }
    {
        if wants(&wanted, ChecksumKind::MODULAR) {
            self.modular.add(offset, bytes);
        }
        if wants(&wanted, ChecksumKind::PROXIMITY) {
            self.proximity.add(offset, bytes);
        }
        if wants(&wanted, ChecksumKind::CASTAGNOLI) {
            self.castagnoli.add(offset, bytes);
        }
        if wants(&wanted, ChecksumKind::IEEE) {
            self.ieee.add(offset, bytes);
        }
        self.fit();
    }

    /// Returns the checksum of this type, as an EOF carries it: 0 for the null checksum, and if the
    /// type isn't known. Each octet of the file must have come.
    #[tactic(auto, unfolding(crate::specs::Pdu::Sums::sum_told))]
    pub fn value(&self, kind: ChecksumKind) -> u32
        ensures { result ≡ sum_told kind self.now }
    {
        match kind {
            ChecksumKind::MODULAR => self.modular.value(),
            ChecksumKind::PROXIMITY => self.proximity.value(),
            ChecksumKind::CASTAGNOLI => self.castagnoli.value(),
            ChecksumKind::IEEE => self.ieee.value(),
            _ => 0,
        }
    }
}

impl Checksums {
    // For the prover: each checksum is a number of thirty-two bits.
    fn fit(&self)
        ensures { SumsFit self.now }
    {
        let _modular = self.modular.value();
        let _proximity = self.proximity.value();
        let _castagnoli = self.castagnoli.value();
        let _ieee = self.ieee.value();
    }
}

// Returns `true` if pieces count for the checksum of this type.
fn wants(wanted: &Option<ChecksumKind>, kind: ChecksumKind) -> bool
    ensures { result ≡ words.wants wanted.now kind }
{
    match wanted {
        Some(wanted) => *wanted == kind,
        None => true,
    }
}

/// A law: however a file is cut, and in whatever order its pieces come, what is kept of them gives
/// its checksum of each type that was asked for. What is kept of some pieces and then of others is
/// what is kept of both; and what is kept for all types is kept for each.
pub fn cut_file_has_its_checksum()
    ensures none { (wanted : Option ℕ) → AreSumsOf wanted [] nothing_summed }
    ensures more { (wanted : Option ℕ) (front back : List Piece) (sums : Checksums) →
        AreSumsOf wanted front sums
        → AreSumsOf wanted (front ++ back) (all_summed wanted sums back) }
    ensures named { (kind : ℕ) (pieces : List Piece) (sums : Checksums) →
        AreSumsOf None pieces sums → AreSumsOf (Some kind) pieces sums }
    ensures told { (wanted : Option ℕ) (kind : ℕ) (file : List ℕ) (pieces : List Piece)
        (sums : Checksums) → AreSumsOf wanted pieces sums → words.wants wanted kind ≡ true
        → Cuts file pieces → sum_told kind sums ≡ checksum_of kind file }
{
    crc::cut_file_has_its_check();
}

/// A law: octets that follow the octets that came leave what both leave in one piece. If none came,
/// nothing is left, and a whole file in one piece gives its checksum.
pub fn checksums_go_on()
    ensures none { (wanted : Option ℕ) →
        summed wanted nothing_summed (record { offset = 0; bytes = [] }) ≡ nothing_summed }
    ensures more { (wanted : Option ℕ) (front back : List ℕ) →
        summed wanted (summed wanted nothing_summed (record { offset = 0; bytes = front }))
        (record { offset = length front; bytes = back })
        ≡ summed wanted nothing_summed (record { offset = 0; bytes = front ++ back }) }
    ensures whole { (wanted : Option ℕ) (kind : ℕ) (file : List ℕ) →
        words.wants wanted kind ≡ true
        → sum_told kind (summed wanted nothing_summed (record { offset = 0; bytes = file }))
        ≡ checksum_of kind file }
{
    crc::a_file_check_goes_on();
}
