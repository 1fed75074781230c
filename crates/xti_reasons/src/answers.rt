//! What calls answer in a journal.

use crate::values::Value;
use xti_verbs::Answer;

/// What stands behind `ok` in such an answer, in order.
pub(crate) fn answer_values(answer: Answer) -> &'static [Value] {
    match answer {
        Answer::Opened | Answer::Sent => &[Value::Number],
        Answer::Bound | Answer::Got => &[Value::Octets, Value::Number],
        Answer::Connected => &[Value::Octets, Value::Octets, Value::Octets],
        Answer::Listened => &[Value::Number, Value::Octets, Value::Octets, Value::Octets],
        Answer::Discon => &[Value::Number, Value::Number, Value::Octets],
        Answer::UData => &[Value::Octets, Value::Octets, Value::Octets, Value::Number],
        Answer::UDErr => &[Value::Octets, Value::Octets, Value::Number],
        Answer::Seen => &[Value::EventOrNone],
        Answer::Stands => &[Value::State],
        Answer::Limits => &[
            Value::Limit,
            Value::Limit,
            Value::Limit,
            Value::Limit,
            Value::Limit,
            Value::Limit,
            Value::Service,
            Value::Number,
        ],
        Answer::Addresses => &[Value::Octets, Value::Octets],
        Answer::Options => &[Value::Number, Value::Octets],
        Answer::RelData => &[Value::Octets],
        Answer::Plain | Answer::Refused | Answer::Look | Answer::Overflow | Answer::Part => &[],
    }
}
