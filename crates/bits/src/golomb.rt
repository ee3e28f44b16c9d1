// se(v)'s mapping (Rec 9.1.1), and the length of ue(v)'s prefix (Rec 9.1).
ghost use Rattle.std.specs.Prelude.{◌≡◌, ◌<◌, negsuc};
ghost use Rattle.bits.specs.Rule.{signed_of, unsigned_of};
ghost use Rattle.bits.specs.Step.{Prefix};
ghost use Rattle.bits.specs.Answer.{mapped, told_by};

use desk::Refusal;

// Odd k stands for (k + 1) / 2, even k for -(k / 2).
pub(crate) fn signed_of(k: u32) -> i32
    requires { k < 4294967295 }
    ensures { result ≡ signed_of k }
{
    if k % 2 == 1 {
        ((k + 1) / 2) as i32
    } else {
        -((k / 2) as i32)
    }
}

// The same, asked for by itself: 2^32-1, which no code has, is refused.
pub fn golomb_to_signed(val: u32) -> Result<i32, Refusal>
    ensures { told_by result ≡ mapped val }
{
    if val == u32::MAX {
        return Err(Refusal::NoCode);
    }
    Ok(signed_of(val))
}

// And back: 0, 1, -1, 2, -2 are 0, 1, 2, 3, 4.
pub(crate) fn unsigned_of(value: i32) -> u32
    requires { value ≡ negsuc 2147483647 → ⊥ }
    ensures { result ≡ unsigned_of value }
{
    let twice = 2 * value.unsigned_abs();
    if value > 0 { twice - 1 } else { twice }
}

// The zeros before the one of value's code: the place of the highest one in value + 1.
pub(crate) fn prefix_len(value: u32) -> u32
    requires { value < 4294967295 }
    ensures { Prefix value result }
{
    31 - u32::leading_zeros(value + 1)
}
