//! The words of the format.

/// The words that may stand somewhere.
#[derive(Clone, Copy)]
pub(crate) struct Vocabulary {
    /// What another word is.
    pub kind: &'static str,
    /// The words, or those that a word may be near to.
    pub words: &'static [&'static str],
    /// Words of other languages.
    pub foreign: &'static [Foreign],
    /// Words that came with version 4, in a file of another one.
    pub later: &'static [&'static str],
}

/// A word of other languages, and what to write here.
#[derive(Clone, Copy)]
pub(crate) struct Foreign {
    pub word: &'static str,
    pub write: &'static str,
}

/// The keys of a file.
const FILE: Vocabulary = Vocabulary {
    kind: "no key of a program file",
    words: &[
        "version", "stop", "origins", "reactors", "links", "inputs", "outputs",
    ],
    foreign: &[],
    later: &["begin"],
};

/// The keys of a reactor.
const REACTOR: Vocabulary = Vocabulary {
    kind: "no key of a reactor",
    words: &[
        "name",
        "vars",
        "inputs",
        "outputs",
        "actions",
        "timers",
        "reactions",
    ],
    foreign: &[],
    later: &["arrays", "called", "hidden"],
};

/// The keys of a file of version 4.
const LATER_FILE: Vocabulary = Vocabulary {
    words: &[
        "version", "stop", "origins", "begin", "reactors", "links", "inputs", "outputs",
    ],
    later: &[],
    ..FILE
};

/// The keys of a reactor of version 4.
const LATER_REACTOR: Vocabulary = Vocabulary {
    words: &[
        "name",
        "vars",
        "arrays",
        "inputs",
        "outputs",
        "actions",
        "timers",
        "reactions",
        "called",
        "hidden",
    ],
    later: &[],
    ..REACTOR
};

/// The keys of a beginning.
pub(crate) const BEGIN: Vocabulary = Vocabulary {
    kind: "no key of a beginning",
    words: &["pending", "lost", "since"],
    foreign: &[],
    later: &[],
};

/// The keys of a file of version 4, or of another one.
pub(crate) fn file_keys(is_last: bool) -> Vocabulary {
    if is_last { LATER_FILE } else { FILE }
}

/// The keys of a reactor in such a file.
pub(crate) fn reactor_keys(is_last: bool) -> Vocabulary {
    if is_last { LATER_REACTOR } else { REACTOR }
}

/// The first words of statements in such a file.
pub(crate) fn statements(is_last: bool) -> Vocabulary {
    if is_last {
        LATER_STATEMENTS
    } else {
        STATEMENTS
    }
}

/// The first words of expressions in such a file.
pub(crate) fn operators(is_last: bool) -> Vocabulary {
    if is_last { LATER_OPERATORS } else { OPERATORS }
}

/// The keys of a reaction.
pub(crate) const REACTION: Vocabulary = Vocabulary {
    kind: "no key of a reaction",
    words: &["on", "reads", "writes", "body"],
    foreign: &[],
    later: &[],
};

/// The first words of statements.
const STATEMENTS: Vocabulary = Vocabulary {
    kind: "no statement",
    words: &["set", "put", "schedule", "if"],
    foreign: &[
        Foreign {
            word: "=",
            write: "[\"set\", variable, expression]",
        },
        Foreign {
            word: ":=",
            write: "[\"set\", variable, expression]",
        },
    ],
    later: &["setat", "while"],
};

/// The first words of expressions that are longer than a byte.
const OPERATORS: Vocabulary = Vocabulary {
    kind: "no operator",
    words: &["neg", "not", "and", "or", "if", "present"],
    foreign: &[
        Foreign {
            word: ">",
            write: "[\"<\", b, a]",
        },
        Foreign {
            word: "<=",
            write: "[\"not\", [\"<\", b, a]]",
        },
        Foreign {
            word: ">=",
            write: "[\"not\", [\"<\", a, b]]",
        },
        Foreign {
            word: "==",
            write: "[\"=\", a, b]",
        },
        Foreign {
            word: "!=",
            write: "[\"not\", [\"=\", a, b]]",
        },
        Foreign {
            word: "max",
            write: "[\"if\", [\"<\", a, b], b, a]",
        },
        Foreign {
            word: "min",
            write: "[\"if\", [\"<\", a, b], a, b]",
        },
        Foreign {
            word: "abs",
            write: "[\"if\", [\"<\", a, 0], [\"neg\", a], a]",
        },
        Foreign {
            word: "&&",
            write: "[\"and\", a, b]",
        },
        Foreign {
            word: "||",
            write: "[\"or\", a, b]",
        },
        Foreign {
            word: "!",
            write: "[\"not\", a]",
        },
    ],
    later: &[
        "mix", "muldiv", "at", "time", "micro", "&", "|", "^", "<<", ">>",
    ],
};

/// The first words of statements of version 4.
const LATER_STATEMENTS: Vocabulary = Vocabulary {
    words: &["set", "put", "schedule", "if", "setat", "while"],
    later: &[],
    ..STATEMENTS
};

/// The first words of expressions of version 4 that are longer than a byte.
const LATER_OPERATORS: Vocabulary = Vocabulary {
    kind: "no operator",
    words: &[
        "neg", "not", "and", "or", "if", "present", "min", "max", "abs", "mix", "muldiv", "at",
        "time", "micro",
    ],
    foreign: &[
        Foreign {
            word: ">",
            write: "[\"<\", b, a]",
        },
        Foreign {
            word: "<=",
            write: "[\"not\", [\"<\", b, a]]",
        },
        Foreign {
            word: ">=",
            write: "[\"not\", [\"<\", a, b]]",
        },
        Foreign {
            word: "==",
            write: "[\"=\", a, b]",
        },
        Foreign {
            word: "!=",
            write: "[\"not\", [\"=\", a, b]]",
        },
        Foreign {
            word: "&&",
            write: "[\"and\", a, b]",
        },
        Foreign {
            word: "||",
            write: "[\"or\", a, b]",
        },
        Foreign {
            word: "!",
            write: "[\"not\", a]",
        },
        Foreign {
            word: "~",
            write: "[\"^\", a, -1]",
        },
    ],
    later: &[],
};

impl Vocabulary {
    /// What to write in the place of a word of other languages.
    pub(crate) fn instead_of(self, word: &str) -> Option<&'static str> {
        for foreign in self.foreign {
            if foreign.word == word {
                return Some(foreign.write);
            }
        }
        None
    }
}

/// How many parts stand behind the first word of an expression of a file of version 4, or of another one.
pub(crate) fn operands(word: &str, is_last: bool) -> Option<usize> {
    match word {
        "neg" | "not" | "present" => Some(1),
        "+" | "-" | "*" | "/" | "%" | "=" | "<" | "and" | "or" => Some(2),
        "if" => Some(3),
        _ if is_last => later_operands(word),
        _ => None,
    }
}

/// The same of those that came with version 4.
fn later_operands(word: &str) -> Option<usize> {
    match word {
        "time" | "micro" => Some(0),
        "abs" => Some(1),
        "min" | "max" | "&" | "|" | "^" | "<<" | ">>" | "mix" | "at" => Some(2),
        "muldiv" => Some(3),
        _ => None,
    }
}
