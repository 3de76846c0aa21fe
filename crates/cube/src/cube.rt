// The types: a cube, the form of an input in it, and why no cube was made.
ghost use Rattle.std.specs.Prelude.{◌≡◌, ◌<◌, bit_or};

// A product of inputs that drives a set of outputs. Input i may be 0 where bit i of `zeros` is set, and may be 1 where
// bit i of `ones` is set; where both are, the product does not look at it. Output i is driven where bit i of `outputs`
// is set.
#[derive(Clone, Copy, PartialEq, Eq, Debug)]
pub struct Cube {
    pub(crate) zeros: u32,
    pub(crate) ones: u32,
    pub(crate) outputs: u32,
    ghost full: { bit_or zeros ones ≡ 4294967295 },
    ghost driven: { 0 < outputs },
}

// How an input stands in a product.
#[derive(Clone, Copy, PartialEq, Eq, Debug)]
pub enum Form {
    Negative,
    Positive,
    Absent,
}

// Why three words make no cube.
#[derive(Clone, Copy, PartialEq, Eq, Debug)]
pub enum CubeRefusal {
    NoForm,
    NoOutput,
}
