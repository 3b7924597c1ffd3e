ghost use Rattle.std.specs.Prelude.{◌≡◌, []};
ghost use Rattle.outside_io.specs.FailingCalls.{calls_made, failing_numbers, is_next_failing, CallMade};

// The numbers of the calls that are to fail, and how many calls were made.
#[derive(Drop)]
pub struct FailingCalls {
    made: u64,
    numbers: Option<Vec<u64>>,
}

impl FailingCalls {
    // No call was made, and none is to fail.
    pub fn new() -> FailingCalls
        ensures made { calls_made result ≡ 0 }
        ensures numbers { failing_numbers result ≡ [] }
    {
        FailingCalls {
            made: 0,
            numbers: None,
        }
    }

    // These calls are to fail, and no others.
    pub fn set(&mut self, calls: Vec<u64>)
        ensures made { calls_made self.new ≡ calls_made self.old }
        ensures numbers { failing_numbers self.new ≡ calls.items }
    {
        self.numbers = Some(calls);
    }

    // Counts a call, and answers whether it is to fail.
    pub fn fails_next(&mut self) -> bool
        ensures answer { result ≡ is_next_failing self.old }
        ensures counted { CallMade self.old self.new }
    {
        self.made = self.made.saturating_add(1);
        match &self.numbers {
            Some(numbers) => numbers.contains(&self.made),
            None => false,
        }
    }
}
