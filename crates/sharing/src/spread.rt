// An amount that is spread over weights in order.
ghost use Rattle.std.specs.Prelude.{◌≡◌, ◌≤◌};
ghost use Rattle.sharing.specs.Shares.{running};

// The amount, with the whole weight that it is spread over.
#[derive(Clone, Copy)]
pub(crate) struct Spread {
    pub(crate) amount: u32,
    pub(crate) whole: u32,
}

impl Spread {
    // What is shared of the amount once the weights so far come to `weight`: nothing where the whole weight is 0.
    pub(crate) fn running_share(self, weight: u32) -> u32
        requires { weight ≤ self.whole }
        ensures { result ≡ running self.amount self.whole weight }
    {
        let product = u64::from(self.amount) * u64::from(weight);
        product.checked_div(u64::from(self.whole)).unwrap_or(0) as u32
    }
}
