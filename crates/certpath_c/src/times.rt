//! Dates and times: those of items, and the moment at which a path is judged.

ghost use Rattle.std.specs.Prelude.{◌≡◌, IfSome, IsNone};
ghost use Rattle.cert_model.specs.Class.{certificate, list, other};
ghost use Rattle.cert_model.specs.View.{time_view, certificate_view, list_view};
ghost use Rattle.cert_model.specs.ClassView.{class_view};
ghost use Rattle.certpath_c.specs.Times.{IsRow, IsValidityOf, TimesAnswer};

use crate::status::{DONE, NO_FIELD, OUT_OF_MEMORY};
use cert_model::fields::{CertFields, ListFields};
use certcheck::{ItemClass, read_tree};
use jiff::civil::DateTime;
use std::alloc::Global;

/// A date and time in UTC.
#[repr(C)]
#[derive(Clone, Copy, Debug)]
pub struct Moment {
    pub year: i16,
    pub month: i8,
    pub day: i8,
    pub hour: i8,
    pub minute: i8,
    pub second: i8,
}

/// The times of an item.
#[repr(C)]
#[derive(Clone, Copy, Debug)]
pub struct Validity {
    pub first: Moment,
    pub last: Moment,
    pub has_last: u32,
}

fn row_of(time: &DateTime) -> Moment
    ensures { IsRow (time_view time.now) result }
{
    Moment {
        year: time.year(),
        month: time.month(),
        day: time.day(),
        hour: time.hour(),
        minute: time.minute(),
        second: time.second(),
    }
}

pub(crate) fn certificate_times(fields: &CertFields<'_>) -> Validity
    ensures { IsValidityOf (certificate (certificate_view fields.now)) result }
{
    Validity {
        first: row_of(&fields.not_before),
        last: row_of(&fields.not_after),
        has_last: 1,
    }
}

pub(crate) fn list_times(fields: &ListFields<'_>) -> Validity
    ensures { IsValidityOf (list (list_view fields.now)) result }
{
    let first = row_of(&fields.this_update);
    match &fields.next_update {
        Some(next) => Validity {
            first,
            last: row_of(next),
            has_last: 1,
        },
        None => Validity {
            first,
            last: first,
            has_last: 0,
        },
    }
}

/// The times of an item that has any.
fn times_of(class: &ItemClass<'_>) -> Option<Validity>
    ensures found { IfSome result (λ v. IsValidityOf (class_view class.now) v) }
    ensures none { IsNone result → class_view class.now ≡ other }
{
    match class {
        ItemClass::Certificate(fields) => Some(certificate_times(fields)),
        ItemClass::List(fields) => Some(list_times(fields)),
        ItemClass::Other => None,
    }
}

/// `certpath_times` of the header.
#[unsafe(no_mangle)]
pub extern "C" fn certpath_times(alloc: Global, item: &[u8], validity: &mut Validity) -> i32
    ensures { TimesAnswer item.now validity.old validity.new result }
{
    let Ok(class) = read_tree(alloc, item) else {
        return OUT_OF_MEMORY;
    };
    let Some(times) = times_of(&class) else {
        return NO_FIELD;
    };
    *validity = times;
    DONE
}
