//! What callers in other languages are shown of the types of `messages.rs`.
//!
//! Made from `messages.rs` by `tools/derive --library`: change that, and make this again.
ghost use Rattle.std.specs.Prelude.{◌≡◌, Some, None};
ghost use Rattle.speedy.specs.Exports.{ShowsFlag, ShowsText};

use crate::messages::{Message, Reading};
use speedy::encoded::EncodedList;
use speedy::exports::{ListView, Shown, Unshown, View, Walk, flag_number, flag_shown, text_shown};
use std::alloc::Global;

/// An option: whether there is a value (0 or 1), and which.
#[repr(C)]
#[derive(Clone, Copy)]
pub struct MaybeTextView<'a> {
    pub is_some: u8,
    pub value: &'a [u8],
}

impl<'a> MaybeTextView<'a> {
    // Zeros.
    fn empty() -> MaybeTextView<'a> {
        MaybeTextView {
            is_some: 0,
            value: &[],
        }
    }
}

impl<'a> View<Option<&'a str>> for MaybeTextView<'a> {
    ghost shows = { λ value view. elim value [
      | None ↦ view.is_some ≡ 0
      | Some it ↦ (view.is_some ≡ 1) × (ShowsText it.now view.value.now)
    ] };

    fn of(value: &Option<&'a str>) -> MaybeTextView<'a> {
        match value {
            Some(it) => MaybeTextView {
                is_some: 1,
                value: it.as_bytes(),
            },
            None => MaybeTextView {
                is_some: 0,
                value: &[],
            },
        }
    }
}

impl<'a> Shown<Option<&'a str>> for MaybeTextView<'a> {
    fn value(&self, _alloc: Global) -> Result<Option<&'a str>, Unshown> {
        match self.is_some {
            0 => Ok(None),
            1 => {
                let it = text_shown(self.value)?;
                Ok(Some(it))
            }
            _ => Err(Unshown::Tag),
        }
    }
}

/// What a [`Reading`] shows.
#[repr(C)]
#[derive(Clone, Copy)]
pub struct ReadingView {
    pub second: u32,
    pub value: i32,
    pub is_exact: u8,
}

impl ReadingView {
    // Zeros.
    fn empty() -> ReadingView {
        ReadingView {
            second: 0,
            value: 0,
            is_exact: 0,
        }
    }
}

impl View<Reading> for ReadingView {
    ghost shows = { λ value view.
        (view.second ≡ value.second) × (view.value ≡ value.value) × (ShowsFlag value.is_exact view.is_exact) };

    fn of(value: &Reading) -> ReadingView {
        ReadingView {
            second: value.second,
            value: value.value,
            is_exact: flag_number(value.is_exact),
        }
    }
}

impl Shown<Reading> for ReadingView {
    fn value(&self, _alloc: Global) -> Result<Reading, Unshown> {
        let t0 = self.second;
        let t1 = self.value;
        let t2 = flag_shown(self.is_exact)?;
        Ok(Reading {
            second: t0,
            value: t1,
            is_exact: t2,
        })
    }
}

/// What a `Hello` of [`Message`] shows.
#[repr(C)]
#[derive(Clone, Copy)]
pub struct MessageHelloView<'a> {
    pub name: &'a [u8],
    pub version: [u8; 3],
    pub mail: MaybeTextView<'a>,
}

impl<'a> MessageHelloView<'a> {
    // Zeros.
    fn empty() -> MessageHelloView<'a> {
        MessageHelloView {
            name: &[],
            version: [0; 3],
            mail: MaybeTextView::empty(),
        }
    }
}

/// What a `Measured` of [`Message`] shows.
#[repr(C)]
#[derive(Clone, Copy)]
pub struct MessageMeasuredView {
    pub sensor: u16,
    pub reading: ReadingView,
}

impl MessageMeasuredView {
    // Zeros.
    fn empty() -> MessageMeasuredView {
        MessageMeasuredView {
            sensor: 0,
            reading: ReadingView::empty(),
        }
    }
}

/// What a `Blob` of [`Message`] shows.
#[repr(C)]
#[derive(Clone, Copy)]
pub struct MessageBlobView<'a> {
    pub t0: &'a [u8],
}

impl<'a> MessageBlobView<'a> {
    // Zeros.
    fn empty() -> MessageBlobView<'a> {
        MessageBlobView { t0: &[] }
    }
}

/// What a `Measurements` of [`Message`] shows.
#[repr(C)]
#[derive(Clone, Copy)]
pub struct MessageMeasurementsView<'a> {
    pub sensor: u16,
    pub readings: ListView<'a>,
}

impl<'a> MessageMeasurementsView<'a> {
    // Zeros.
    fn empty() -> MessageMeasurementsView<'a> {
        MessageMeasurementsView {
            sensor: 0,
            readings: ListView {
                items: Walk { left: &[] },
                count: 0,
                order: 0,
            },
        }
    }
}

/// What a [`Message`] shows: the tag of its variant, and the fields of that.
#[repr(C)]
#[derive(Clone, Copy)]
pub struct MessageView<'a> {
    pub tag: u32,
    pub hello: MessageHelloView<'a>,
    pub measured: MessageMeasuredView,
    pub blob: MessageBlobView<'a>,
    pub measurements: MessageMeasurementsView<'a>,
}

impl<'a> MessageView<'a> {
    // Zeros.
    fn empty() -> MessageView<'a> {
        MessageView {
            tag: 0,
            hello: MessageHelloView::empty(),
            measured: MessageMeasuredView::empty(),
            blob: MessageBlobView::empty(),
            measurements: MessageMeasurementsView::empty(),
        }
    }
}

impl<'a> View<Message<'a>> for MessageView<'a> {
    ghost use Rattle.telemetry.specs.declared.messages.Message.{Message};

    ghost shows = { λ value view. elim value [
      | Message.Ping ↦
          view.tag ≡ 1
      | Message.Hello t0 t1 t2 ↦
          (view.tag ≡ 2) × (ShowsText t0.now view.hello.name.now) × (view.hello.version ≡ t1)
          × (⟦<MaybeTextView<'a> as View<Option<&'a str>>>⟧.shows t2 view.hello.mail)
      | Message.Measured t0 t1 ↦
          (view.tag ≡ 3) × (view.measured.sensor ≡ t0)
          × (⟦<ReadingView as View<Reading>>⟧.shows t1 view.measured.reading)
      | Message.Blob t0 ↦
          (view.tag ≡ 4) × (view.blob.t0.now ≡ t0.now)
      | Message.Measurements t0 t1 ↦
          (view.tag ≡ 5) × (view.measurements.sensor ≡ t0)
          × (⟦<ListView<'a> as View<EncodedList<'a, Reading>>>⟧.shows t1 view.measurements.readings)
    ] };

    fn of(value: &Message<'a>) -> MessageView<'a> {
        let mut view = MessageView::empty();
        match value {
            Message::Ping => view.tag = 1,
            Message::Hello {
                name: t0,
                version: t1,
                mail: t2,
            } => {
                let items_t1 = *t1;
                view.tag = 2;
                view.hello = MessageHelloView {
                    name: t0.as_bytes(),
                    version: items_t1,
                    mail: View::of(t2),
                };
            }
            Message::Measured {
                sensor: t0,
                reading: t1,
            } => {
                view.tag = 3;
                view.measured = MessageMeasuredView {
                    sensor: *t0,
                    reading: View::of(t1),
                };
            }
            Message::Blob(t0) => {
                view.tag = 4;
                view.blob = MessageBlobView { t0: *t0 };
            }
            Message::Measurements {
                sensor: t0,
                readings: t1,
            } => {
                view.tag = 5;
                view.measurements = MessageMeasurementsView {
                    sensor: *t0,
                    readings: View::of(t1),
                };
            }
        }
        view
    }
}

impl<'a> Shown<Message<'a>> for MessageView<'a> {
    fn value(&self, alloc: Global) -> Result<Message<'a>, Unshown> {
        match self.tag {
            1 => Ok(Message::Ping),
            2 => {
                let t0 = text_shown(self.hello.name)?;
                let t1 = self.hello.version;
                let t2 = self.hello.mail.value(alloc)?;
                Ok(Message::Hello {
                    name: t0,
                    version: t1,
                    mail: t2,
                })
            }
            3 => {
                let t0 = self.measured.sensor;
                let t1 = self.measured.reading.value(alloc)?;
                Ok(Message::Measured {
                    sensor: t0,
                    reading: t1,
                })
            }
            4 => {
                let t0 = self.blob.t0;
                Ok(Message::Blob(t0))
            }
            5 => {
                let t0 = self.measurements.sensor;
                let t1 = self.measurements.readings.value(alloc)?;
                Ok(Message::Measurements {
                    sensor: t0,
                    readings: t1,
                })
            }
            _ => Err(Unshown::Tag),
        }
    }
}
