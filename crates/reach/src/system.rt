// What can be swept: configurations as numbers, where each bit leads, which are bad, and from which it starts.
ghost use Rattle.std.specs.Prelude.{◌≡◌, ℕ, ◌^◌, ◌<◌, ◌≤◌, true};
ghost use Rattle.reach.specs.Model.{Model};

pub trait System {
    ghost model: { Self → Model };

    // How many configurations there are at most.
    fn count(&self) -> u64
        ensures value { result ≡ (model self.now).count }
        ensures small { result ≤ 2 ^ 60 };

    // How many starts there are.
    fn starts(&self) -> u64
        ensures value { result ≡ (model self.now).starts }
        ensures few { result ≤ (model self.now).count };

    // The start of a number.
    fn start(&self, i: u64) -> u64
        requires { i < (model self.now).starts }
        ensures value { result ≡ (model self.now).start i }
        ensures good { (model self.now).good result ≡ true }
        ensures below { result < (model self.now).count };

    // Where a bit leads. A bit is a number here, since it is shifted and added to what it follows.
    fn after(&self, p: u64, bit: u64) -> u64
        requires good { (model self.now).good p ≡ true }
        requires below { p < (model self.now).count }
        requires bit { bit < 2 }
        ensures value { result ≡ (model self.now).next p bit }
        ensures good { (model self.now).good result ≡ true }
        ensures below { result < (model self.now).count };

    fn is_bad(&self, p: u64) -> bool
        requires good { (model self.now).good p ≡ true }
        requires below { p < (model self.now).count }
        ensures { result ≡ (model self.now).bad p };
}
