// Gaussian integers, far from overflow. The contracts cite specs/Gaussian.antt.

#![tactic(auto)]

ghost use Rattle.std.specs.Prelude.{◌≡◌, ◌^◌};
ghost use Rattle.gaussian.specs.Gaussian.{Within, ◌⊕◌, ◌⊖◌, ◌⊗◌, conj};

// re + im i
#[derive(Clone, Copy, Debug, PartialEq, Eq)]
pub struct Gaussian {
    pub re: i64,
    pub im: i64,
}

// Wrong, and refused: the parts exchanged; the remainder of a part by 7.
pub fn plus(a: Gaussian, b: Gaussian) -> Gaussian
    requires { Within (2 ^ 60) a × Within (2 ^ 60) b }
    ensures { result ≡ a ⊕ b }
{
    Gaussian {
        re: a.re + b.re,
        im: a.im + b.im,
    }
}

// Wrong, and refused: the parts exchanged; the remainder of a part by 7.
pub fn minus(a: Gaussian, b: Gaussian) -> Gaussian
    requires { Within (2 ^ 60) a × Within (2 ^ 60) b }
    ensures { result ≡ a ⊖ b }
{
    Gaussian {
        re: a.re - b.re,
        im: a.im - b.im,
    }
}

// Wrong, and refused: the product of the imaginary parts added; the remainder of a part by 7.
pub fn times(a: Gaussian, b: Gaussian) -> Gaussian
    requires { Within (2 ^ 15) a × Within (2 ^ 40) b }
    ensures { result ≡ a ⊗ b }
{
    Gaussian {
        re: a.re * b.re - a.im * b.im,
        im: a.re * b.im + a.im * b.re,
    }
}

// Wrong, and refused: the parts exchanged; the remainder of a part by 7.
pub fn conjugate(a: Gaussian) -> Gaussian
    requires { Within (2 ^ 15) a }
    ensures { (result ≡ conj a) × Within (2 ^ 15) result }
{
    Gaussian {
        re: a.re,
        im: -a.im,
    }
}
