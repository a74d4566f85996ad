//! Forms: the limits of each, and the wider of each two.
use crate::transcript::Transcript;
use warp_tag::Form;

/// Each form.
const FORMS: [Form; 4] = [Form::One, Form::Two, Form::Three, Form::Four];

/// Tells the limits of each form, and then of each two the wider.
pub(crate) fn perform(out: &mut Transcript) {
    for form in FORMS {
        say_limits(out, form);
    }
    for form in FORMS {
        say_wider(out, form);
    }
}

/// Tells the limits of a form.
fn say_limits(out: &mut Transcript, form: Form) {
    let (stop, time, period) = (form.longest_stop(), form.last_time(), form.longest_period());
    let (micro, origins) = (form.last_microstep(), form.most_origins());
    let (records, rows) = (form.most_records(), form.most_rows());
    out.say(format_args!("{form:?}: stop {stop}, time {time}, period {period}"));
    out.say(format_args!("microstep {micro}, {origins} origins, {records} records, {rows} rows"));
}

/// Tells the wider of a form and each form.
fn say_wider(out: &mut Transcript, form: Form) {
    for other in FORMS {
        out.say(format_args!("{form:?} or {other:?}: {:?}", form.or_wider(other)));
    }
}
