// The twelve first weights.

ghost use Rattle.std.specs.Prelude.{◌≡◌, true, ◌<◌, length};
ghost use Rattle.outline.specs.Numbers.{last_month};
ghost use Rattle.weighing.specs.Weighing.{weight_at, weights_fit};

// Twelve first weights, each in its range.
#[derive(Clone, Copy)]
pub struct Weights<'a> {
    pub list: &'a [i32],
    pub ghost fit: { (length list.now ≡ last_month) × (weights_fit list.now last_month ≡ true) },
}

impl Weights<'_> {
    // A month's, which is not below zero.
    pub fn of_month(&self, m: usize) -> u64
        requires { m < last_month }
        ensures { result ≡ weight_at self.now.list.now m }
    {
        let w = self.list[m];
        w as u64
    }
}
