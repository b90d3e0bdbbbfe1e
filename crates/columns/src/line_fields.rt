// The fields of each kind of line: the first column of each, and the last where it has more than one (specs/LineFields).

// ECKDATEN, lines 1 and 2: DD.MM.YYYY.
pub mod date {
    pub const WHOLE: usize = 1;

    pub const WHOLE_END: usize = 10;

    pub const DAY: usize = 1;

    pub const DAY_END: usize = 2;

    pub const MONTH: usize = 4;

    pub const MONTH_END: usize = 5;

    pub const YEAR: usize = 7;

    pub const YEAR_END: usize = 10;

    pub const REST: usize = 11;
}

// BITFELD.
pub mod bit_field {
    pub const NUMBER: usize = 1;

    pub const NUMBER_END: usize = 6;

    pub const BITS: usize = 8;

    pub const BITS_END: usize = 103;
}

// BAHNHOF.
pub mod stop {
    pub const NUMBER: usize = 1;

    pub const NUMBER_END: usize = 7;

    pub const AUTHORITY: usize = 9;

    pub const AUTHORITY_END: usize = 11;

    pub const NAMES: usize = 13;

    pub const NAMES_END: usize = 62;

    pub const REST: usize = 63;
}

// UMSTEIGB.
pub mod interchange {
    pub const STOP: usize = 1;

    pub const STOP_END: usize = 7;

    pub const FIRST: usize = 9;

    pub const FIRST_END: usize = 10;

    pub const SECOND: usize = 12;

    pub const SECOND_END: usize = 13;

    pub const REST: usize = 15;
}

// ZUGART.
pub mod class {
    pub const CODE: usize = 1;

    pub const CODE_END: usize = 3;

    pub const NUMBER: usize = 5;

    pub const NUMBER_END: usize = 6;

    pub const TARIFF: usize = 8;

    pub const CONTROL: usize = 10;

    pub const TEXT: usize = 12;

    pub const TEXT_END: usize = 19;

    pub const SUPPLEMENT: usize = 21;

    pub const FLAG: usize = 23;

    pub const REST: usize = 25;
}

// Every line of FPLAN that starts with a star; the mark on schedule lines too.
pub mod plan_line {
    pub const KIND: usize = 1;

    pub const KIND_END: usize = 3;

    pub const MARK: usize = 59;

    pub const REST: usize = 60;
}

// *Z lines; *T lines have number and administration in the same columns.
pub mod opening {
    pub const NUMBER: usize = 4;

    pub const NUMBER_END: usize = 8;

    pub const ADMINISTRATION: usize = 10;

    pub const ADMINISTRATION_END: usize = 15;

    pub const REPEATS: usize = 23;

    pub const REPEATS_END: usize = 25;

    pub const OFFSET: usize = 27;

    pub const OFFSET_END: usize = 29;
}

// *T lines.
pub mod frequency {
    pub const TIME: usize = 17;

    pub const TIME_END: usize = 20;

    pub const DENSITY: usize = 22;

    pub const DENSITY_END: usize = 25;
}

// *G lines.
pub mod category {
    pub const NAME: usize = 4;

    pub const NAME_END: usize = 6;

    pub const FROM: usize = 8;

    pub const FROM_END: usize = 14;

    pub const TO: usize = 16;

    pub const TO_END: usize = 22;

    pub const FROM_DETAIL: usize = 24;

    pub const FROM_DETAIL_END: usize = 29;

    pub const TO_DETAIL: usize = 31;

    pub const TO_DETAIL_END: usize = 36;
}

// *A lines.
pub mod attribute {
    pub const CODE: usize = 4;

    pub const CODE_END: usize = 5;

    pub const FROM: usize = 7;

    pub const FROM_END: usize = 13;

    pub const TO: usize = 15;

    pub const TO_END: usize = 21;

    pub const BIT_FIELD: usize = 23;

    pub const BIT_FIELD_END: usize = 28;

    pub const FROM_DETAIL: usize = 30;

    pub const FROM_DETAIL_END: usize = 35;

    pub const TO_DETAIL: usize = 37;

    pub const TO_DETAIL_END: usize = 42;
}

// Schedule lines.
pub mod call {
    pub const STOP: usize = 1;

    pub const STOP_END: usize = 7;

    pub const STOP_NAME: usize = 9;

    pub const STOP_NAME_END: usize = 29;

    pub const ARRIVAL: usize = 30;

    pub const ARRIVAL_END: usize = 35;

    pub const DEPARTURE: usize = 37;

    pub const DEPARTURE_END: usize = 42;

    pub const NUMBER: usize = 44;

    pub const NUMBER_END: usize = 48;

    pub const ADMINISTRATION: usize = 50;

    pub const ADMINISTRATION_END: usize = 55;

    pub const BOARD: usize = 57;
}
