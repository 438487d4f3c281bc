// What a number draws.
ghost use Rattle.std.specs.Prelude.{◌≡◌, ◌<◌, ◌^◌, ◌/◌};
ghost use Rattle.workload.specs.Generator.{next_state};

/// By what a step multiplies the state.
const FACTOR: u64 = 1_103_515_245;

/// What a step then adds.
const INCREMENT: u64 = 12_345;

/// All states are below this.
const MODULUS: u64 = 1 << 31;

/// A draw is the state divided by this.
const LOW_PART: u32 = 65_536;

/// The sample generator of the C standard: its state, from which each draw follows.
#[derive(Drop)]
pub(crate) struct Generator {
    pub(crate) state: u32,
    ghost limited: { state < 2 ^ 31 },
}

impl Generator {
    /// A generator that starts at a number.
    pub(crate) fn new(number: u32) -> Generator
        requires { number < 2 ^ 31 }
        ensures { result.state ≡ number }
    {
        Generator { state: number }
    }

    /// The next draw, below 2^15.
    #[tactic(auto, unfolding(crate::specs::Generator::next_state))]
    pub(crate) fn next_draw(&mut self) -> u32
        ensures state { self.new.state ≡ next_state self.old.state }
        ensures draw { result ≡ self.new.state / 65536 }
        ensures small { result < 2 ^ 15 }
    {
        self.state = ((u64::from(self.state) * FACTOR + INCREMENT) % MODULUS) as u32;
        self.state / LOW_PART
    }
}
