// What a test asks, and what objects a selector is of, and the numbers by which they stand in the tables.
ghost use Rattle.std.specs.Prelude.{◌≡◌};
ghost use Rattle.table.specs.Kind.{test_number, test_kind, object_number, object_kind};

#[derive(Clone, Copy)]
pub enum TestKind {
    Exists = 1,
    NotExists,
    True,
    False,
    TextEqual,
    TextNotEqual,
    NumberEqual,
    NumberNotEqual,
    Less,
    LessOrEqual,
    Greater,
    GreaterOrEqual,
}

impl TestKind {
    pub fn number(self) -> u8
        ensures { result ≡ test_number self }
    {
        self as u8
    }

    // The kind of this number, and the last where none has it.
    #[tactic(auto, unfolding(base::specs::Choice::pick, crate::specs::Kind::test_kind))]
    pub fn of(k: usize) -> TestKind
        ensures { result ≡ test_kind k }
    {
        match k {
            1 => TestKind::Exists,
            2 => TestKind::NotExists,
            3 => TestKind::True,
            4 => TestKind::False,
            5 => TestKind::TextEqual,
            6 => TestKind::TextNotEqual,
            7 => TestKind::NumberEqual,
            8 => TestKind::NumberNotEqual,
            9 => TestKind::Less,
            10 => TestKind::LessOrEqual,
            11 => TestKind::Greater,
            _ => TestKind::GreaterOrEqual,
        }
    }
}

#[derive(Clone, Copy)]
pub enum ObjectKind {
    All = 1,
    Canvas,
    Meta,
    Node,
    Way,
    Area,
}

impl ObjectKind {
    pub fn number(self) -> u8
        ensures { result ≡ object_number self }
    {
        self as u8
    }

    // The kind of this number, and the last where none has it.
    #[tactic(auto, unfolding(base::specs::Choice::pick, crate::specs::Kind::object_kind))]
    pub fn of(k: usize) -> ObjectKind
        ensures { result ≡ object_kind k }
    {
        match k {
            1 => ObjectKind::All,
            2 => ObjectKind::Canvas,
            3 => ObjectKind::Meta,
            4 => ObjectKind::Node,
            5 => ObjectKind::Way,
            _ => ObjectKind::Area,
        }
    }
}
