/// What the rows of a table are walked through.
#[derive(Clone, Copy, Debug, PartialEq, Eq)]
pub enum Kind {
    /// The program over files, stimulus, trace and error line in memory.
    Command,
    /// A text and its tokens, each with its bytes, or its refusal.
    Tokens,
    /// A text and the places of its tokens.
    Places,
    /// A text and the first finding in it, at its mark `@`.
    Finding,
    /// A text each front of which is refused behind its last byte.
    Fronts,
    /// A text and its tree.
    Tree,
    /// A text and the numbers of ports and items of its modules.
    Sizes,
    /// A text and its flat netlist.
    Flat,
    /// A netlist, a stimulus of it, and what each call for a row of it answers.
    Stimulus,
}

impl Kind {
    /// The kind of this name.
    pub fn named(name: &str) -> Option<Kind> {
        match name {
            "command" => Some(Kind::Command),
            "tokens" => Some(Kind::Tokens),
            "places" => Some(Kind::Places),
            "finding" => Some(Kind::Finding),
            "fronts" => Some(Kind::Fronts),
            "tree" => Some(Kind::Tree),
            "sizes" => Some(Kind::Sizes),
            "flat" => Some(Kind::Flat),
            "stimulus" => Some(Kind::Stimulus),
            _ => None,
        }
    }

    /// The key with which a row begins.
    pub fn first_key(self) -> &'static str {
        match self {
            Kind::Command => "words",
            _ => "text",
        }
    }

    /// The first words of the further keys of what is given.
    pub fn given(self) -> &'static [&'static str] {
        match self {
            Kind::Command => &["file", "stimulus", "reads", "writes", "fails"],
            Kind::Finding => &["top"],
            Kind::Flat => &["top", "clock"],
            Kind::Stimulus => &["top", "clock", "stimulus", "reads", "fails"],
            _ => &[],
        }
    }

    /// The keys of what must come out, which each row has.
    pub fn wanted(self) -> &'static [&'static str] {
        match self {
            Kind::Command => &["trace", "line", "exit"],
            Kind::Tokens => &["tokens"],
            Kind::Places => &["places"],
            Kind::Finding => &["finds"],
            Kind::Fronts => &["fronts"],
            Kind::Tree => &["tree"],
            Kind::Sizes => &["sizes"],
            Kind::Flat => &["flat"],
            Kind::Stimulus => &["calls"],
        }
    }

    /// The first words of the keys of what must come out where a row has them.
    pub fn wanted_too(self) -> &'static [&'static str] {
        match self {
            Kind::Command => &["holds"],
            Kind::Flat => &["net"],
            _ => &[],
        }
    }

    /// Whether a row may have a field whose key begins with this word.
    pub fn has_key(self, word: &str) -> bool {
        word == self.first_key()
            || self.given().contains(&word)
            || self.wanted().contains(&word)
            || self.wanted_too().contains(&word)
    }
}
