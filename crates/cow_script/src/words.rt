// The words of a script.
ghost use Rattle.std.specs.Prelude.{◌≡◌, map};
ghost use Rattle.std.specs.Str.{bytes_eq};
ghost use Rattle.cow_model.specs.Words as spec;

use cow_model::{AtomWord, Form, Kind, NameWord, OtherWord, PlaceWord, Side, SideWord, Verb, Word};

const WORDS: [(&[u8], Word); 41] = [
    (b"let", Word::Statement(Form::Let)),
    (b"drop", Word::Statement(Form::OnName(NameWord::Drop))),
    (b"show", Word::Statement(Form::OnName(NameWord::Show))),
    (b"count", Word::Statement(Form::OnName(NameWord::Count))),
    (b"append", Word::Statement(Form::OnAtom(AtomWord::Append))),
    (b"prepend", Word::Statement(Form::OnAtom(AtomWord::Prepend))),
    (b"insert", Word::Statement(Form::Insert)),
    (b"update", Word::Statement(Form::OnAtom(AtomWord::Update))),
    (b"remove", Word::Statement(Form::OnAtom(AtomWord::Remove))),
    (
        b"removeat",
        Word::Statement(Form::OnPlace(PlaceWord::RemoveAt)),
    ),
    (b"set", Word::Statement(Form::Set)),
    (b"get", Word::Statement(Form::OnAtom(AtomWord::Get))),
    (b"at", Word::Statement(Form::OnPlace(PlaceWord::At))),
    (b"has", Word::Statement(Form::OnAtom(AtomWord::Has))),
    (b"place", Word::Statement(Form::OnAtom(AtomWord::Place))),
    (b"pop", Word::Statement(Form::OnSide(SideWord::Pop))),
    (b"peek", Word::Statement(Form::OnSide(SideWord::Peek))),
    (b"replace", Word::Statement(Form::Replace)),
    (b"swap", Word::Statement(Form::Swap)),
    (b"reverse", Word::Statement(Form::OnName(NameWord::Reverse))),
    (b"rotate", Word::Statement(Form::OnPlace(PlaceWord::Rotate))),
    (b"splice", Word::Statement(Form::Splice)),
    (
        b"reserve",
        Word::Statement(Form::OnPlace(PlaceWord::Reserve)),
    ),
    (b"clear", Word::Statement(Form::OnName(NameWord::Clear))),
    (b"rebase", Word::Statement(Form::OnName(NameWord::Rebase))),
    (b"extend", Word::Statement(Form::OnOther(OtherWord::Extend))),
    (b"union", Word::Statement(Form::OnOther(OtherWord::Union))),
    (b"inter", Word::Statement(Form::OnOther(OtherWord::Inter))),
    (b"minus", Word::Statement(Form::OnOther(OtherWord::Minus))),
    (
        b"symdiff",
        Word::Statement(Form::OnOther(OtherWord::SymDiff)),
    ),
    (b"subset", Word::Statement(Form::OnOther(OtherWord::Subset))),
    (
        b"disjoint",
        Word::Statement(Form::OnOther(OtherWord::Disjoint)),
    ),
    (b"equal", Word::Statement(Form::OnOther(OtherWord::Equal))),
    (b"put", Word::Statement(Form::Put)),
    (b"merge", Word::Statement(Form::Merge)),
    (b"within", Word::Statement(Form::OnOther(OtherWord::Within))),
    (b"lazy", Word::Statement(Form::Lazy)),
    (b"fork", Word::Fork),
    (b"task", Word::Task),
    (b"give", Word::Statement(Form::Give)),
    (b"end", Word::End),
];

const KINDS: [(&[u8], Kind); 9] = [
    (b"array", Kind::Array),
    (b"deque", Kind::Deque),
    (b"set", Kind::Set),
    (b"dict", Kind::Dict),
    (b"oset", Kind::OSet),
    (b"odict", Kind::ODict),
    (b"heap", Kind::Heap),
    (b"tset", Kind::TSet),
    (b"tdict", Kind::TDict),
];

const SIDES: [(&[u8], Side); 4] = [
    (b"first", Side::First),
    (b"last", Side::Last),
    (b"min", Side::Min),
    (b"max", Side::Max),
];

const VERBS: [(&[u8], Verb); 3] = [
    (b"first", Verb::First),
    (b"show", Verb::Show),
    (b"count", Verb::Count),
];

const GROUPS: [(&[u8], bool); 2] = [(b"copy", false), (b"take", true)];

const PREFERENCES: [(&[u8], bool); 2] = [(b"keep", false), (b"take", true)];

/// Whether a token is this word.
pub fn is_word(token: &[u8], word: &[u8]) -> bool
    ensures { result ≡ bytes_eq token.now word.now }
{
    token == word
}

// What a token means by a table.
fn look_up<T: Copy>(table: &[(&[u8], T)], token: &[u8]) -> Option<T>
    ensures { result ≡ spec.look_up (map (λ entry. (entry.0.now, entry.1)) table.now) token.now }
{
    for entry in table {
        if entry.0 == token {
            return Some(entry.1);
        }
    }
    None
}

/// What the first word of a line means.
#[tactic(auto, unfolding(cow_model::specs::Words::word_of))]
pub fn word(token: &[u8]) -> Option<Word>
    ensures { result ≡ spec.word_of token.now }
{
    look_up(&WORDS, token)
}

/// The kind that a token names.
#[tactic(auto, unfolding(cow_model::specs::Words::kind_of))]
pub fn kind(token: &[u8]) -> Option<Kind>
    ensures { result ≡ spec.kind_of token.now }
{
    look_up(&KINDS, token)
}

/// The end of a value that a token names.
#[tactic(auto, unfolding(cow_model::specs::Words::side_of))]
pub fn side(token: &[u8]) -> Option<Side>
    ensures { result ≡ spec.side_of token.now }
{
    look_up(&SIDES, token)
}

/// What a token asks of a lazy view.
#[tactic(auto, unfolding(cow_model::specs::Words::verb_of))]
pub fn verb(token: &[u8]) -> Option<Verb>
    ensures { result ≡ spec.verb_of token.now }
{
    look_up(&VERBS, token)
}

/// Whether the group of captures that a token opens moves.
#[tactic(auto, unfolding(cow_model::specs::Words::group_of))]
pub fn group(token: &[u8]) -> Option<bool>
    ensures { result ≡ spec.group_of token.now }
{
    look_up(&GROUPS, token)
}

/// Whether a merge takes the other's value.
#[tactic(auto, unfolding(cow_model::specs::Words::preference_of))]
pub fn preference(token: &[u8]) -> Option<bool>
    ensures { result ≡ spec.preference_of token.now }
{
    look_up(&PREFERENCES, token)
}
