// The square root and the angles for C and Rust to link. Each export calls the function of `export_routines` that has its name, and promises what that promises.
#![tactic(auto)]

ghost use Rattle.std.specs.Prelude.{◌≡◌, [], ◌∷◌};
ghost use Rattle.root.specs.SquareRoot.{square_root};
ghost use Rattle.sine.specs.Rule.{sine, cosine};
ghost use Rattle.arctan.specs.Rule.{arctangent};
ghost use Rattle.arccos.specs.Arccos.{arccosine};
ghost use Rattle.export_numbers.specs.Exported.{NumbersWritten};

#[unsafe(no_mangle)]
pub extern "C" fn arcs_sqrt(x: f64) -> f64
    ensures { result ≡ square_root x }
{
    export_routines::arcs_sqrt(x)
}

#[unsafe(no_mangle)]
pub extern "C" fn arcs_sin(x: f64) -> f64
    ensures { result ≡ sine x }
{
    export_routines::arcs_sin(x)
}

#[unsafe(no_mangle)]
pub extern "C" fn arcs_cos(x: f64) -> f64
    ensures { result ≡ cosine x }
{
    export_routines::arcs_cos(x)
}

// The sine and the cosine to the first two numbers of `out`. Gives 0, or 4 where they do not fit, and then changes nothing.
#[unsafe(no_mangle)]
pub extern "C" fn arcs_sin_cos(x: f64, out: &mut [f64]) -> u32
    ensures { NumbersWritten 2 0 (sine x ∷ cosine x ∷ []) out.old result out.new }
{
    export_routines::arcs_sin_cos(x, out)
}

#[unsafe(no_mangle)]
pub extern "C" fn arcs_atan2(y: f64, x: f64) -> f64
    ensures { result ≡ arctangent y x }
{
    export_routines::arcs_atan2(y, x)
}

#[unsafe(no_mangle)]
pub extern "C" fn arcs_acos(c: f64) -> f64
    ensures { result ≡ arccosine c }
{
    export_routines::arcs_acos(c)
}
