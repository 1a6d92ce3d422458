// The whole square root, rounded down: a squared distance as a distance. The definition is `floor_root` of `vectors`.
ghost use Rattle.std.specs.Prelude.{◌≡◌};
ghost use Rattle.vectors.specs.Root.{floor_root};

// A binary digit at a time, from the leading one.
#[tactic(auto, using(crate::proofs::RootDigits::root_digits))]
pub fn whole_root(square: u64) -> u64
    ensures { result ≡ floor_root 32 square }
{
    let mut root: u64 = 0;
    for left in (0..32u32).rev() {
        let next = 2 * root + 1;
        root = if next * next <= square >> (2 * left) {
            next
        } else {
            next - 1
        };
    }
    root
}
