// A record that has passed some rules, with its sizes.
ghost use Rattle.std.specs.Prelude.{◌≡◌, false};
ghost use Rattle.record.specs.Rules.{spare_set};
ghost use Rattle.record.specs.Steps.{Sound};

// Order R lets it pass: n and m are the numbers of its terminals and of its wires.
#[derive(Clone, Copy)]
pub struct Layout<'a> {
    pub bytes: &'a [u8],
    pub n: usize,
    pub m: usize,
    pub ghost sound: { Sound bytes.now n m },
}

// Rule 5 lets it pass too.
#[derive(Clone, Copy)]
pub struct LaidOut<'a> {
    pub layout: Layout<'a>,
    pub ghost clear: { spare_set layout.bytes.now ≡ false },
}
