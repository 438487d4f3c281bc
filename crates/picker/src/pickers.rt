// A closure that picks, kept beside what is known of it.
ghost use Rattle.std.specs.Prelude.{◌≡◌, ℕ};
ghost use Rattle.std.proofs.Props.{props};
ghost use Rattle.picker.specs.Picks.{AreWords, IsPick};

/// What answers with one of the places of some values, by a threshold. A closure that is boxed as one has the types of
/// its parameters written out, and owns what it captures.
pub type Choice = Box<dyn Fn(&[u64], u64) -> Option<usize> + Send>;

/// A choice, beside the fact that on any values and threshold it may be asked and answers with a place whose value
/// reaches the threshold, and with none only where no value does.
#[derive(Drop)]
pub struct Picker {
    choice: Choice,
    ghost may_be_asked: { (values : _) (threshold : ℕ) → AreWords values.now threshold → Choice.pre choice values threshold },
    ghost picks: { (values : _) (threshold : ℕ) (answer : _) → AreWords values.now threshold → Choice.post choice values threshold answer → IsPick values.now threshold answer } by { Prim.hlevel props },
}

impl Picker {
    /// Keeps a choice. Takes no memory.
    pub fn new(choice: Choice) -> Picker
        requires may_be_asked { (values : _) (threshold : ℕ) → AreWords values.now threshold → Choice.pre choice values threshold }
        requires picks { (values : _) (threshold : ℕ) (answer : _) → AreWords values.now threshold → Choice.post choice values threshold answer → IsPick values.now threshold answer }
        ensures { result.choice ≡ choice }
    {
        Picker { choice }
    }

    /// What the choice answers: a place whose value reaches the threshold, and none only where no value does.
    pub fn pick(&self, values: &[u64], threshold: u64) -> Option<usize>
        ensures pick { IsPick values.now threshold result }
        ensures answer { Choice.post self.now.choice values.entry threshold result }
    {
        (self.choice)(values, threshold)
    }
}

// Pickers are sent to threads: that they may is proved here, and not where they first are.
fn ask_sent<T: Send>(_value: &T) {}

fn ask_picker_sent(picker: &Picker) {
    ask_sent(picker);
}
