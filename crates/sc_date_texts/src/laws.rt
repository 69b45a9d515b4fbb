//! The two ways to say what a text stands for agree.
ghost use Rattle.std.specs.Prelude.{◌≡◌, ◌↔◌, ℕ, ℤ, List, Some};
ghost use Rattle.sc_date_texts.specs.DurationText.{IsDurationText};
ghost use Rattle.sc_date_texts.specs.DurationValue.{duration_of};
ghost use Rattle.sc_date_texts.specs.DatetimeText.{IsDatetimeText};
ghost use Rattle.sc_date_texts.specs.DatetimeValue.{datetime_of};
ghost use Rattle.sc_date_texts.specs.Written.{IsCivil, IsInYears};

/// What `duration_of` and `datetime_of` find is what the text stands for. A date of the years 0000 to 9999 with a time
/// of the day is a number of these years.
pub fn text_laws()
    ensures durations { (text : List ℕ) (z : ℤ) → (duration_of text ≡ Some z) ↔ IsDurationText text z }
    ensures datetimes { (text : List ℕ) (z : ℤ) → (datetime_of text ≡ Some z) ↔ IsDatetimeText text z }
    ensures years { (z : ℤ) (year month day time : ℕ) → IsCivil z year month day time → IsInYears z }
{}
