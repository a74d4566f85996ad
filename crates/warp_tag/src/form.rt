//! Forms: how wide the numbers of a program, its lines and its replies are.
ghost use Rattle.std.specs.Prelude.{◌≡◌, ◌≤◌};
ghost use Rattle.warp_tag.specs.Limits as limits;

/// The limits that a program, its lines and its replies keep to. A program of version 1 has the first, one of version 2
/// the second, one of version 3 the third, one of version 4 the fourth. Whatever is in range in one is in range in each behind it.
#[derive(Clone, Copy, Debug, PartialEq, Eq)]
pub enum Form {
    /// A stop of up to 1,000,000, microsteps 0 to 15, 32 origins, logs of 100,000 records, boards of 4,096 rows.
    One,
    /// A stop of up to 10,000,000, microsteps 0 to 255, 64 origins, logs and boards as in the first.
    Two,
    /// A stop of up to 15,624,999, microsteps and origins as in the second, logs of 10,000,000 records, boards of
    /// 1,048,576 rows.
    Three,
    /// As the third, with more of each thing in a program, arrays and loops in its bodies, and announcements of all
    /// origins together.
    Four,
}

impl Form {
    /// The last time that a program can have as its stop, in the program's own unit.
    pub fn longest_stop(self) -> u64
        ensures { result ≡ limits.longest_stop self }
    {
        match self {
            Form::One => 1_000_000,
            Form::Two => 10_000_000,
            Form::Three | Form::Four => 15_624_999,
        }
    }

    /// The last time of a tag: one past the last stop, so that "everything up to the stop" has an end.
    pub fn last_time(self) -> u64
        ensures { result ≡ limits.last_time self }
    {
        match self {
            Form::One => 1_000_001,
            Form::Two => 10_000_001,
            Form::Three | Form::Four => 15_625_000,
        }
    }

    /// The last microstep of a time.
    pub fn last_microstep(self) -> u32
        ensures { result ≡ limits.last_microstep self }
    {
        match self {
            Form::One => 15,
            Form::Two | Form::Three | Form::Four => 255,
        }
    }

    /// The longest delay, offset or period that a program can name.
    pub fn longest_period(self) -> u64
        ensures { result ≡ limits.longest_period self }
    {
        match self {
            Form::One => 1_000_000,
            Form::Two => 10_000_000,
            Form::Three | Form::Four => 15_624_999,
        }
    }

    /// The most origins of a program.
    pub fn most_origins(self) -> u32
        ensures { result ≡ limits.most_origins self }
    {
        match self {
            Form::One => 32,
            Form::Two | Form::Three | Form::Four => 64,
        }
    }

    /// The most records of a log.
    pub fn most_records(self) -> u32
        ensures value { result ≡ limits.most_records self }
        ensures range { result ≤ limits.most_records limits.widest }
    {
        match self {
            Form::One | Form::Two => 100_000,
            Form::Three | Form::Four => 10_000_000,
        }
    }

    /// The most rows of a board.
    pub fn most_rows(self) -> u32
        ensures value { result ≡ limits.most_rows self }
        ensures range { (1 ≤ result) × (result ≤ limits.most_rows limits.widest) }
    {
        match self {
            Form::One | Form::Two => 4_096,
            Form::Three | Form::Four => 1_048_576,
        }
    }

    /// The most reactors of a program.
    pub fn most_reactors(self) -> u32
        ensures value { result ≡ limits.most_reactors self }
        ensures range { result ≤ limits.most_reactors limits.widest }
    {
        match self {
            Form::One | Form::Two | Form::Three => 64,
            Form::Four => 256,
        }
    }

    /// The most variables of a program, the cells of its arrays among them.
    pub fn most_variables(self) -> u32
        ensures value { result ≡ limits.most_variables self }
        ensures range { result ≤ limits.most_variables limits.widest }
    {
        match self {
            Form::One | Form::Two | Form::Three => 256,
            Form::Four => 66_560,
        }
    }

    /// The most ports of a program, inputs and outputs of its reactors together.
    pub fn most_ports(self) -> u32
        ensures value { result ≡ limits.most_ports self }
        ensures range { result ≤ limits.most_ports limits.widest }
    {
        match self {
            Form::One | Form::Two | Form::Three => 256,
            Form::Four => 1_024,
        }
    }

    /// The most reactions of a program.
    pub fn most_reactions(self) -> u32
        ensures value { result ≡ limits.most_reactions self }
        ensures range { result ≤ limits.most_reactions limits.widest }
    {
        match self {
            Form::One | Form::Two | Form::Three => 256,
            Form::Four => 1_024,
        }
    }

    /// The most links of a program.
    pub fn most_links(self) -> u32
        ensures value { result ≡ limits.most_links self }
        ensures range { result ≤ limits.most_links limits.widest }
    {
        match self {
            Form::One | Form::Two | Form::Three => 256,
            Form::Four => 1_024,
        }
    }

    /// The most actions of a program.
    pub fn most_actions(self) -> u32
        ensures value { result ≡ limits.most_actions self }
        ensures range { result ≤ limits.most_actions limits.widest }
    {
        match self {
            Form::One | Form::Two | Form::Three => 64,
            Form::Four => 256,
        }
    }

    /// The most timers of a program.
    pub fn most_timers(self) -> u32
        ensures value { result ≡ limits.most_timers self }
        ensures range { result ≤ limits.most_timers limits.widest }
    {
        match self {
            Form::One | Form::Two | Form::Three => 16,
            Form::Four => 64,
        }
    }

    /// The most inputs of a program.
    pub fn most_inputs(self) -> u32
        ensures value { result ≡ limits.most_inputs self }
        ensures range { result ≤ limits.most_inputs limits.widest }
    {
        match self {
            Form::One | Form::Two | Form::Three => 64,
            Form::Four => 256,
        }
    }

    /// The most outputs of a program.
    pub fn most_outputs(self) -> u32
        ensures value { result ≡ limits.most_outputs self }
        ensures range { result ≤ limits.most_outputs limits.widest }
    {
        match self {
            Form::One | Form::Two | Form::Three => 64,
            Form::Four => 256,
        }
    }

    /// Whether all origins together can announce.
    pub fn has_joint(self) -> bool
        ensures { result ≡ limits.has_joint self }
    {
        match self {
            Form::One | Form::Two | Form::Three => false,
            Form::Four => true,
        }
    }

    /// The wider of the two.
    pub fn or_wider(self, other: Form) -> Form
        ensures { result ≡ limits.wider self other }
    {
        match (self, other) {
            (Form::One, other) => other,
            (Form::Two, Form::Three) => Form::Three,
            (Form::Two | Form::Three, Form::Four) => Form::Four,
            (form, _) => form,
        }
    }
}
