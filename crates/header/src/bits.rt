// A run of bits of a word, read and replaced, and the lowest bit that is 1 or 0.
ghost use Rattle.std.specs.Prelude.{◌≡◌, not, ◌+◌, ◌≤◌, ◌<◌, ◌^◌};
ghost use Rattle.words.specs.Below.{FirstBelow};
ghost use Rattle.header.specs.Fields.{field, is_one, patched};

// The w bits of n from bit p on.
#[tactic(auto, using(crate::proofs::FieldLaws::one_shl), unfolding(crate::specs::Fields::field))]
pub fn get(n: u64, p: usize, w: usize) -> u64
    requires { (p < 64) × (w < 64) }
    ensures { result ≡ field n p w }
{
    (n >> p) % (1 << w)
}

// n with d in place of its w bits from bit p on.
#[tactic(auto, using(crate::proofs::FieldLaws::shl_le, crate::proofs::FieldLaws::shl_fits, crate::proofs::FieldLaws::shl_patched))]
pub fn replace(n: u64, p: usize, w: usize, d: u64) -> u64
    requires { (p < 64) × (w < 64) × (p + w ≤ 64) × (d < 2 ^ w) }
    ensures { result ≡ patched n p w d }
{
    let old = get(n, p, w) << p;
    n - old + (d << p)
}

// The lowest bit of n that is 1.
#[tactic(auto, using(crate::proofs::Lowest::first_one, crate::proofs::Lowest::no_one))]
pub fn lowest_one(n: u64) -> Option<usize>
    ensures { FirstBelow (is_one n) 64 result }
{
    let t = n.trailing_zeros() as usize;
    if t < 64 { Some(t) } else { None }
}

// The lowest bit of n that is 0.
#[tactic(auto, using(crate::proofs::Lowest::zeros))]
pub fn lowest_zero(n: u64) -> Option<usize>
    ensures { FirstBelow (λ t. not (is_one n t)) 64 result }
{
    lowest_one(!n)
}
