// The square root and the angles for C and Rust to link: numbers and slices of numbers cross, and nothing else, since C links them. The crate `export_routines_c` exports them.
#![tactic(auto)]

ghost use Rattle.std.specs.Prelude.{◌≡◌, [], ◌∷◌};
ghost use Rattle.root.specs.SquareRoot.{square_root};
ghost use Rattle.sine.specs.Rule.{sine, cosine};
ghost use Rattle.arctan.specs.Rule.{arctangent};
ghost use Rattle.arccos.specs.Arccos.{arccosine};
ghost use Rattle.export_numbers.specs.Exported.{NumbersWritten};

pub fn arcs_sqrt(x: f64) -> f64
    ensures { result ≡ square_root x }
{
    root::sqrt(x)
}

pub fn arcs_sin(x: f64) -> f64
    ensures { result ≡ sine x }
{
    sine::sin(x)
}

pub fn arcs_cos(x: f64) -> f64
    ensures { result ≡ cosine x }
{
    sine::cos(x)
}

// The sine and the cosine to the first two numbers of `out`. Gives 0, or 4 where they do not fit, and then changes nothing.
pub fn arcs_sin_cos(x: f64, out: &mut [f64]) -> u32
    ensures { NumbersWritten 2 0 (sine x ∷ cosine x ∷ []) out.old result out.new }
{
    let both = sine::sin_cos(x);
    export_numbers::write(&[both.sin, both.cos], out)
}

pub fn arcs_atan2(y: f64, x: f64) -> f64
    ensures { result ≡ arctangent y x }
{
    arctan::atan2(y, x)
}

pub fn arcs_acos(c: f64) -> f64
    ensures { result ≡ arccosine c }
{
    arccos::acos(c)
}
