//! The forms of the divisions, as tables.
ghost use Rattle.std.specs.Prelude.{◌≡◌, map};
ghost use Rattle.cob_data.specs.Tables.{form_of, alternative_of};
ghost use Rattle.cob_data.specs.Forms.{alternatives_of};

use Part::{Maybe, More};
use Sort::{AnyWord, Kind, Reserved};
use cob_lex::TokenKind;

/// What a form asks of a token.
#[derive(Clone, Copy)]
pub(crate) enum Sort {
    /// This reserved word.
    Reserved(&'static [u8]),
    /// A word that is not reserved.
    Name,
    /// Any word.
    AnyWord,
    /// Any token of a kind.
    Kind(TokenKind),
}

/// The forms of the divisions before the Procedure Division.
#[derive(Clone, Copy)]
pub(crate) enum Form {
    Environment,
    Configuration,
    SourceComputer,
    ObjectComputer,
    WorkingStorage,
    Communication,
    Item,
    NameOrFiller,
    Clauses,
    BehindPicture,
    BehindValue,
    Value,
    CdEntry,
    CdUse,
    Direction,
    InputBody,
    InputClause,
    SymbolicField,
    MessageField,
    OutputBody,
    OutputClause,
    DestinationClause,
    WordIs,
    WordTimes,
}

/// A part of a form.
#[derive(Clone, Copy)]
pub(crate) enum Part {
    /// A token of a sort.
    Token(Sort),
    /// A form.
    Form(Form),
    /// A form that may be left out.
    Maybe(Form),
    /// Further turns of a form, or none.
    More(Form),
}

/// A sort of token with which a form may begin, and the parts behind that token.
#[derive(Clone, Copy)]
pub(crate) struct Alternative(pub(crate) Sort, pub(crate) &'static [Part]);

const NUMBER: Sort = Kind(TokenKind::Number);

const PERIOD: Sort = Kind(TokenKind::Period);

const PICTURE: Part = Part::Token(Kind(TokenKind::Picture));

const END: Part = Part::Token(PERIOD);

const NAME: Part = Part::Token(Sort::Name);

const WORD: Part = Part::Token(AnyWord);

const DIVISION: Part = Part::Token(Reserved(b"DIVISION"));

const SECTION: Part = Part::Token(Reserved(b"SECTION"));

const INPUT: Part = Part::Token(Reserved(b"INPUT"));

const LENGTH: Part = Part::Token(Reserved(b"LENGTH"));

const KEY: Part = Part::Token(Reserved(b"KEY"));

const DESTINATION: Part = Part::Token(Reserved(b"DESTINATION"));

const OCCURS: Part = Part::Token(Reserved(b"OCCURS"));

const IS: Part = Maybe(Form::WordIs);

const FIELD: Part = Part::Form(Form::NameOrFiller);

/// The divisions up to the word PROCEDURE, and without it.
pub(crate) const DIVISIONS: &[Part] = &[
    Part::Token(Reserved(b"IDENTIFICATION")),
    DIVISION,
    END,
    Part::Token(Reserved(b"PROGRAM-ID")),
    END,
    WORD,
    END,
    Maybe(Form::Environment),
    Part::Token(Reserved(b"DATA")),
    DIVISION,
    END,
    Maybe(Form::WorkingStorage),
    Maybe(Form::Communication),
];

const ENVIRONMENT: &[Alternative] = &[Alternative(
    Reserved(b"ENVIRONMENT"),
    &[DIVISION, END, Maybe(Form::Configuration)],
)];

const CONFIGURATION: &[Alternative] = &[Alternative(
    Reserved(b"CONFIGURATION"),
    &[
        SECTION,
        END,
        Maybe(Form::SourceComputer),
        Maybe(Form::ObjectComputer),
    ],
)];

const SOURCE_COMPUTER: &[Alternative] = &[Alternative(
    Reserved(b"SOURCE-COMPUTER"),
    &[END, WORD, END],
)];

const OBJECT_COMPUTER: &[Alternative] = &[Alternative(
    Reserved(b"OBJECT-COMPUTER"),
    &[END, WORD, END],
)];

const WORKING_STORAGE: &[Alternative] = &[Alternative(
    Reserved(b"WORKING-STORAGE"),
    &[SECTION, END, More(Form::Item)],
)];

const COMMUNICATION: &[Alternative] = &[Alternative(
    Reserved(b"COMMUNICATION"),
    &[SECTION, END, More(Form::CdEntry)],
)];

const ITEM: &[Alternative] = &[Alternative(NUMBER, &[FIELD, Part::Form(Form::Clauses)])];

const NAME_OR_FILLER: &[Alternative] = &[
    Alternative(Sort::Name, &[]),
    Alternative(Reserved(b"FILLER"), &[]),
];

const CLAUSES: &[Alternative] = &[
    Alternative(PERIOD, &[]),
    Alternative(
        Reserved(b"PIC"),
        &[IS, PICTURE, Part::Form(Form::BehindPicture)],
    ),
    Alternative(
        Reserved(b"PICTURE"),
        &[IS, PICTURE, Part::Form(Form::BehindPicture)],
    ),
    Alternative(
        Reserved(b"VALUE"),
        &[IS, Part::Form(Form::Value), Part::Form(Form::BehindValue)],
    ),
];

const BEHIND_PICTURE: &[Alternative] = &[
    Alternative(PERIOD, &[]),
    Alternative(Reserved(b"VALUE"), &[IS, Part::Form(Form::Value), END]),
];

const BEHIND_VALUE: &[Alternative] = &[
    Alternative(PERIOD, &[]),
    Alternative(Reserved(b"PIC"), &[IS, PICTURE, END]),
    Alternative(Reserved(b"PICTURE"), &[IS, PICTURE, END]),
];

const VALUE: &[Alternative] = &[
    Alternative(Kind(TokenKind::Literal), &[]),
    Alternative(NUMBER, &[]),
    Alternative(Reserved(b"SPACE"), &[]),
    Alternative(Reserved(b"SPACES"), &[]),
    Alternative(Reserved(b"ZERO"), &[]),
    Alternative(Reserved(b"ZEROS"), &[]),
    Alternative(Reserved(b"ZEROES"), &[]),
];

const CD_ENTRY: &[Alternative] = &[Alternative(
    Reserved(b"CD"),
    &[NAME, Part::Form(Form::CdUse), More(Form::Item)],
)];

const CD_USE: &[Alternative] = &[
    Alternative(Reserved(b"FOR"), &[Part::Form(Form::Direction)]),
    Alternative(Reserved(b"INITIAL"), &[INPUT, Part::Form(Form::InputBody)]),
    Alternative(Reserved(b"INPUT"), &[Part::Form(Form::InputBody)]),
    Alternative(Reserved(b"OUTPUT"), &[Part::Form(Form::OutputBody)]),
];

const DIRECTION: &[Alternative] = &[
    Alternative(Reserved(b"INITIAL"), &[INPUT, Part::Form(Form::InputBody)]),
    Alternative(Reserved(b"INPUT"), &[Part::Form(Form::InputBody)]),
    Alternative(Reserved(b"OUTPUT"), &[Part::Form(Form::OutputBody)]),
];

const TEN_MORE: &[Part] = &[
    FIELD, FIELD, FIELD, FIELD, FIELD, FIELD, FIELD, FIELD, FIELD, FIELD, END,
];

/// Further clauses of an input CD, and those of an output CD.
const MORE_IN: Part = More(Form::InputClause);

const MORE_OUT: Part = More(Form::OutputClause);

const INPUT_BODY: &[Alternative] = &[
    Alternative(PERIOD, &[]),
    Alternative(Sort::Name, TEN_MORE),
    Alternative(Reserved(b"FILLER"), TEN_MORE),
    Alternative(
        Reserved(b"SYMBOLIC"),
        &[Part::Form(Form::SymbolicField), MORE_IN, END],
    ),
    Alternative(Reserved(b"QUEUE"), &[IS, NAME, MORE_IN, END]),
    Alternative(Reserved(b"SUB-QUEUE-1"), &[IS, NAME, MORE_IN, END]),
    Alternative(Reserved(b"SUB-QUEUE-2"), &[IS, NAME, MORE_IN, END]),
    Alternative(Reserved(b"SUB-QUEUE-3"), &[IS, NAME, MORE_IN, END]),
    Alternative(Reserved(b"SOURCE"), &[IS, NAME, MORE_IN, END]),
    Alternative(
        Reserved(b"MESSAGE"),
        &[Part::Form(Form::MessageField), IS, NAME, MORE_IN, END],
    ),
    Alternative(Reserved(b"TEXT"), &[LENGTH, IS, NAME, MORE_IN, END]),
    Alternative(Reserved(b"END"), &[KEY, IS, NAME, MORE_IN, END]),
    Alternative(Reserved(b"STATUS"), &[KEY, IS, NAME, MORE_IN, END]),
    Alternative(Reserved(b"COUNT"), &[IS, NAME, MORE_IN, END]),
];

const INPUT_CLAUSE: &[Alternative] = &[
    Alternative(Reserved(b"SYMBOLIC"), &[Part::Form(Form::SymbolicField)]),
    Alternative(Reserved(b"QUEUE"), &[IS, NAME]),
    Alternative(Reserved(b"SUB-QUEUE-1"), &[IS, NAME]),
    Alternative(Reserved(b"SUB-QUEUE-2"), &[IS, NAME]),
    Alternative(Reserved(b"SUB-QUEUE-3"), &[IS, NAME]),
    Alternative(Reserved(b"SOURCE"), &[IS, NAME]),
    Alternative(
        Reserved(b"MESSAGE"),
        &[Part::Form(Form::MessageField), IS, NAME],
    ),
    Alternative(Reserved(b"TEXT"), &[LENGTH, IS, NAME]),
    Alternative(Reserved(b"END"), &[KEY, IS, NAME]),
    Alternative(Reserved(b"STATUS"), &[KEY, IS, NAME]),
    Alternative(Reserved(b"COUNT"), &[IS, NAME]),
];

const SYMBOLIC_FIELD: &[Alternative] = &[
    Alternative(Reserved(b"QUEUE"), &[IS, NAME]),
    Alternative(Reserved(b"SUB-QUEUE-1"), &[IS, NAME]),
    Alternative(Reserved(b"SUB-QUEUE-2"), &[IS, NAME]),
    Alternative(Reserved(b"SUB-QUEUE-3"), &[IS, NAME]),
    Alternative(Reserved(b"SOURCE"), &[IS, NAME]),
];

const MESSAGE_FIELD: &[Alternative] = &[
    Alternative(Reserved(b"DATE"), &[]),
    Alternative(Reserved(b"TIME"), &[]),
    Alternative(Reserved(b"COUNT"), &[]),
];

const OUTPUT_BODY: &[Alternative] = &[
    Alternative(PERIOD, &[]),
    Alternative(
        Reserved(b"DESTINATION"),
        &[Part::Form(Form::DestinationClause), MORE_OUT, END],
    ),
    Alternative(
        Reserved(b"SYMBOLIC"),
        &[DESTINATION, IS, NAME, MORE_OUT, END],
    ),
    Alternative(Reserved(b"TEXT"), &[LENGTH, IS, NAME, MORE_OUT, END]),
    Alternative(Reserved(b"STATUS"), &[KEY, IS, NAME, MORE_OUT, END]),
    Alternative(Reserved(b"ERROR"), &[KEY, IS, NAME, MORE_OUT, END]),
];

const OUTPUT_CLAUSE: &[Alternative] = &[
    Alternative(
        Reserved(b"DESTINATION"),
        &[Part::Form(Form::DestinationClause)],
    ),
    Alternative(Reserved(b"SYMBOLIC"), &[DESTINATION, IS, NAME]),
    Alternative(Reserved(b"TEXT"), &[LENGTH, IS, NAME]),
    Alternative(Reserved(b"STATUS"), &[KEY, IS, NAME]),
    Alternative(Reserved(b"ERROR"), &[KEY, IS, NAME]),
];

const DESTINATION_CLAUSE: &[Alternative] = &[
    Alternative(Reserved(b"COUNT"), &[IS, NAME]),
    Alternative(
        Reserved(b"TABLE"),
        &[OCCURS, Part::Token(NUMBER), Maybe(Form::WordTimes)],
    ),
    Alternative(Reserved(b"IS"), &[NAME]),
    Alternative(Sort::Name, &[]),
];

const WORD_IS: &[Alternative] = &[Alternative(Reserved(b"IS"), &[])];

const WORD_TIMES: &[Alternative] = &[Alternative(Reserved(b"TIMES"), &[])];

impl Form {
    /// The alternatives of a form.
    pub(crate) fn alternatives(self) -> &'static [Alternative]
        ensures { map alternative_of result.now ≡ alternatives_of (form_of self) }
    {
        match self {
            Form::Environment => ENVIRONMENT,
            Form::Configuration => CONFIGURATION,
            Form::SourceComputer => SOURCE_COMPUTER,
            Form::ObjectComputer => OBJECT_COMPUTER,
            Form::WorkingStorage => WORKING_STORAGE,
            Form::Communication => COMMUNICATION,
            Form::Item => ITEM,
            Form::NameOrFiller => NAME_OR_FILLER,
            Form::Clauses => CLAUSES,
            Form::BehindPicture => BEHIND_PICTURE,
            Form::BehindValue => BEHIND_VALUE,
            Form::Value => VALUE,
            Form::CdEntry => CD_ENTRY,
            Form::CdUse => CD_USE,
            Form::Direction => DIRECTION,
            Form::InputBody => INPUT_BODY,
            Form::InputClause => INPUT_CLAUSE,
            Form::SymbolicField => SYMBOLIC_FIELD,
            Form::MessageField => MESSAGE_FIELD,
            Form::OutputBody => OUTPUT_BODY,
            Form::OutputClause => OUTPUT_CLAUSE,
            Form::DestinationClause => DESTINATION_CLAUSE,
            Form::WordIs => WORD_IS,
            Form::WordTimes => WORD_TIMES,
        }
    }
}
