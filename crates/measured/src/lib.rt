// The functions that bench/ measures, under names that C can link. No part of the product.
#![tactic(auto)]

mod surfaced;

ghost use Rattle.std.specs.Prelude.{◌≡◌};
ghost use Rattle.std.specs.Float.{binary64};
ghost use Rattle.std.specs.Float.Ieee.{is_nan, of_bits};
ghost use Rattle.std.specs.Float.Ieee.Scale.{finite};
ghost use Rattle.numbers.specs.Arithmetic.{◌<₆₄◌};
ghost use Rattle.numbers.specs.Basic.{magnitude, larger, clamped, infinite};
ghost use Rattle.numbers.specs.Root.{root};

#[unsafe(no_mangle)]
pub extern "C" fn measured_sqrt(x: f64) -> f64
    ensures { result ≡ root x }
{
    numbers::sqrt(x)
}

#[unsafe(no_mangle)]
pub extern "C" fn measured_root_exceeds(x: f64, y: f64) -> bool
    ensures { result ≡ (y <₆₄ root x) }
{
    numbers::root_exceeds(x, y)
}

#[unsafe(no_mangle)]
pub extern "C" fn measured_from_bits(bits: u64) -> f64
    ensures { result ≡ of_bits binary64 bits }
{
    numbers::from_bits(bits)
}

#[unsafe(no_mangle)]
pub extern "C" fn measured_abs(x: f64) -> f64
    ensures { result ≡ magnitude x }
{
    numbers::abs(x)
}

#[unsafe(no_mangle)]
pub extern "C" fn measured_max(x: f64, y: f64) -> f64
    ensures { result ≡ larger x y }
{
    numbers::max(x, y)
}

#[unsafe(no_mangle)]
pub extern "C" fn measured_clamp(x: f64) -> f64
    ensures { result ≡ clamped x }
{
    numbers::clamp(x)
}

#[unsafe(no_mangle)]
pub extern "C" fn measured_is_nan(x: f64) -> bool
    ensures { result ≡ is_nan x }
{
    numbers::is_nan(x)
}

#[unsafe(no_mangle)]
pub extern "C" fn measured_is_finite(x: f64) -> bool
    ensures { result ≡ finite x }
{
    numbers::is_finite(x)
}

#[unsafe(no_mangle)]
pub extern "C" fn measured_is_infinite(x: f64) -> bool
    ensures { result ≡ infinite x }
{
    numbers::is_infinite(x)
}
