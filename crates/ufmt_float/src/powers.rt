//! Powers of five and ten.
ghost use Rattle.core.specs.Prelude.{◌≡◌, ◌*◌, ◌%◌, ◌^◌, ◌<◌, ◌≤◌};

pub(crate) const FIVE_TO_27: u64 = 7_450_580_596_923_828_125;

const FIVE_TO_16: u64 = 152_587_890_625;

const FIVE_TO_8: u64 = 390_625;

const FIVE_TO_4: u64 = 625;

const FIVE_TO_2: u64 = 25;

pub(crate) const TEN_TO_16: u64 = 10_000_000_000_000_000;

pub(crate) const TEN_TO_8: u64 = 100_000_000;

pub(crate) const TEN_TO_4: u64 = 10_000;

/// Returns `5 ^ n`, without a loop.
#[inline(always)]
pub(crate) fn five_to(n: u64) -> u64
    requires { n ≤ 27 }
    ensures { result ≡ 5 ^ n }
{
    let power = with_bit(n, 1, 1, 5);
    let power = with_bit(n, 2, power, FIVE_TO_2);
    let power = with_bit(n, 4, power, FIVE_TO_4);
    let power = with_bit(n, 8, power, FIVE_TO_8);
    with_bit(n, 16, power, FIVE_TO_16)
}

/// Returns five to the bits of `n` up to `unit`, from the power `low` to the bits below it and from `5 ^ unit`.
#[inline(always)]
fn with_bit(n: u64, unit: u64, low: u64, power: u64) -> u64
    requires few { n ≤ 27 }
    requires unit { (0 < unit) × (unit < 2 ^ 32) }
    requires low { low ≡ 5 ^ (n % unit) }
    requires power { power ≡ 5 ^ unit }
    ensures { result ≡ 5 ^ (n % (2 * unit)) }
{
    if n / unit % 2 == 0 { low } else { low * power }
}
