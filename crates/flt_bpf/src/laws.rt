//! Laws over the definitions of codes, listings and fields: each is a theorem, and its function
//! does nothing.

ghost use Rattle.std.specs.Prelude.{◌≡◌, ℕ, ◌+◌, ◌*◌, ◌<◌, ◌≤◌, List, length, All, Some};
ghost use Rattle.std.specs.Prelude.{slice_index};
ghost use Rattle.flt_bpf.specs.Instructions.{code_of, operation_of};
ghost use Rattle.flt_bpf.specs.Listing.{listing, HasFieldsInRange, IsListing, IsRefusedAt};
ghost use Rattle.flt_bpf.specs.{Machine.big_endian_at, declared.insn.Insn.Insn};
ghost use Rattle.flt_bpf.specs.declared.operation.{Operation.Operation, Width.TheVariants.Word};

/// An operation that a code gives has this code. The other way round is in the contract of
/// `Operation::code`.
#[tactic(auto, using(crate::proofs::Codes::back_of_code))]
pub fn code_back()
    ensures { (code : ℕ) (operation : Operation) → operation_of code ≡ Some operation
        → code_of operation ≡ code }
{}

/// What is written is read back: the listing of at most 32,768 instructions whose fields are in
/// range is a listing of these instructions and of no others, and it is refused at no line.
#[tactic(auto, using(crate::proofs::Readings::same_reading, crate::proofs::Written::listing_written))]
pub fn listing_back()
    ensures back { (insns : List Insn) → length insns ≤ 32768 → All HasFieldsInRange insns
        → IsListing (listing insns) insns }
    ensures alone { (insns others : List Insn) → length insns ≤ 32768 → All HasFieldsInRange insns
        → IsListing (listing insns) others → others ≡ insns }
    ensures not_refused { (insns : List Insn) (line : ℕ) → length insns ≤ 32768
        → All HasFieldsInRange insns
        → ¬ IsRefusedAt (listing insns) line }
{}

/// A text is the listing of at most one list of instructions, and is refused at one line at most;
/// never both.
#[tactic(auto, using(crate::proofs::Readings::same_reading, crate::proofs::Wrong::refused_once))]
pub fn one_reading()
    ensures one { (text : List ℕ) (is js : List Insn) → IsListing text is → IsListing text js
        → is ≡ js }
    ensures once { (text : List ℕ) (line other : ℕ) → IsRefusedAt text line
        → IsRefusedAt text other → line ≡ other }
    ensures not_both { (text : List ℕ) (is : List Insn) (line : ℕ) → IsListing text is
        → ¬ IsRefusedAt text line }
{}

/// The word of four bytes is their big-endian number: it is below 2^32 by itself.
#[tactic(auto, using(crate::proofs::Codes::word_is))]
pub fn word_of_bytes()
    ensures { (p : List ℕ) (at : ℕ) → All (λ b. b < 256) p → big_endian_at p at Word
        ≡ slice_index p at * 0x100_0000 + slice_index p (at + 1) * 0x1_0000
        + slice_index p (at + 2) * 0x100 + slice_index p (at + 3) }
{}
