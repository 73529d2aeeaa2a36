use crate::language::{Language, Layout};
use crate::languages::basque::Basque;
use crate::languages::belarusian::Belarusian;
use crate::languages::chinese::Chinese;
use crate::languages::danish::Danish;
use crate::languages::english::English;
use crate::languages::french::French;
use crate::languages::german::German;
use crate::languages::italian::Italian;
use crate::languages::japanese::Japanese;
use crate::languages::korean::Korean;
use crate::languages::polish::Polish;
use crate::languages::portuguese::Portuguese;
use crate::languages::romanian::Romanian;
use crate::languages::russian::Russian;
use crate::languages::spanish::Spanish;
use crate::languages::swedish::Swedish;
use crate::languages::thai::Thai;
use crate::languages::turkish::Turkish;
use crate::languages::ukrainian::Ukrainian;
use crate::unit::TimeUnit;

/// One of the languages.
#[derive(Clone, Copy)]
pub enum AnyLanguage {
    Basque(Basque),
    Belarusian(Belarusian),
    Chinese(Chinese),
    Danish(Danish),
    English(English),
    French(French),
    German(German),
    Italian(Italian),
    Japanese(Japanese),
    Korean(Korean),
    Polish(Polish),
    Portuguese(Portuguese),
    Romanian(Romanian),
    Russian(Russian),
    Spanish(Spanish),
    Swedish(Swedish),
    Thai(Thai),
    Turkish(Turkish),
    Ukrainian(Ukrainian),
}

impl Language for AnyLanguage {
    ghost use Rattle.tongues.specs.Any.{any_speech};

    ghost speech = { any_speech };

    fn too_low(&self) -> &'static str {
        match self {
            AnyLanguage::Basque(l) => l.too_low(),
            AnyLanguage::Belarusian(l) => l.too_low(),
            AnyLanguage::Chinese(l) => l.too_low(),
            AnyLanguage::Danish(l) => l.too_low(),
            AnyLanguage::English(l) => l.too_low(),
            AnyLanguage::French(l) => l.too_low(),
            AnyLanguage::German(l) => l.too_low(),
            AnyLanguage::Italian(l) => l.too_low(),
            AnyLanguage::Japanese(l) => l.too_low(),
            AnyLanguage::Korean(l) => l.too_low(),
            AnyLanguage::Polish(l) => l.too_low(),
            AnyLanguage::Portuguese(l) => l.too_low(),
            AnyLanguage::Romanian(l) => l.too_low(),
            AnyLanguage::Russian(l) => l.too_low(),
            AnyLanguage::Spanish(l) => l.too_low(),
            AnyLanguage::Swedish(l) => l.too_low(),
            AnyLanguage::Thai(l) => l.too_low(),
            AnyLanguage::Turkish(l) => l.too_low(),
            AnyLanguage::Ukrainian(l) => l.too_low(),
        }
    }

    fn too_high(&self) -> &'static str {
        match self {
            AnyLanguage::Basque(l) => l.too_high(),
            AnyLanguage::Belarusian(l) => l.too_high(),
            AnyLanguage::Chinese(l) => l.too_high(),
            AnyLanguage::Danish(l) => l.too_high(),
            AnyLanguage::English(l) => l.too_high(),
            AnyLanguage::French(l) => l.too_high(),
            AnyLanguage::German(l) => l.too_high(),
            AnyLanguage::Italian(l) => l.too_high(),
            AnyLanguage::Japanese(l) => l.too_high(),
            AnyLanguage::Korean(l) => l.too_high(),
            AnyLanguage::Polish(l) => l.too_high(),
            AnyLanguage::Portuguese(l) => l.too_high(),
            AnyLanguage::Romanian(l) => l.too_high(),
            AnyLanguage::Russian(l) => l.too_high(),
            AnyLanguage::Spanish(l) => l.too_high(),
            AnyLanguage::Swedish(l) => l.too_high(),
            AnyLanguage::Thai(l) => l.too_high(),
            AnyLanguage::Turkish(l) => l.too_high(),
            AnyLanguage::Ukrainian(l) => l.too_high(),
        }
    }

    fn ago(&self) -> &'static str {
        match self {
            AnyLanguage::Basque(l) => l.ago(),
            AnyLanguage::Belarusian(l) => l.ago(),
            AnyLanguage::Chinese(l) => l.ago(),
            AnyLanguage::Danish(l) => l.ago(),
            AnyLanguage::English(l) => l.ago(),
            AnyLanguage::French(l) => l.ago(),
            AnyLanguage::German(l) => l.ago(),
            AnyLanguage::Italian(l) => l.ago(),
            AnyLanguage::Japanese(l) => l.ago(),
            AnyLanguage::Korean(l) => l.ago(),
            AnyLanguage::Polish(l) => l.ago(),
            AnyLanguage::Portuguese(l) => l.ago(),
            AnyLanguage::Romanian(l) => l.ago(),
            AnyLanguage::Russian(l) => l.ago(),
            AnyLanguage::Spanish(l) => l.ago(),
            AnyLanguage::Swedish(l) => l.ago(),
            AnyLanguage::Thai(l) => l.ago(),
            AnyLanguage::Turkish(l) => l.ago(),
            AnyLanguage::Ukrainian(l) => l.ago(),
        }
    }

    fn get_word(&self, tu: TimeUnit, x: u64) -> &'static str {
        match self {
            AnyLanguage::Basque(l) => l.get_word(tu, x),
            AnyLanguage::Belarusian(l) => l.get_word(tu, x),
            AnyLanguage::Chinese(l) => l.get_word(tu, x),
            AnyLanguage::Danish(l) => l.get_word(tu, x),
            AnyLanguage::English(l) => l.get_word(tu, x),
            AnyLanguage::French(l) => l.get_word(tu, x),
            AnyLanguage::German(l) => l.get_word(tu, x),
            AnyLanguage::Italian(l) => l.get_word(tu, x),
            AnyLanguage::Japanese(l) => l.get_word(tu, x),
            AnyLanguage::Korean(l) => l.get_word(tu, x),
            AnyLanguage::Polish(l) => l.get_word(tu, x),
            AnyLanguage::Portuguese(l) => l.get_word(tu, x),
            AnyLanguage::Romanian(l) => l.get_word(tu, x),
            AnyLanguage::Russian(l) => l.get_word(tu, x),
            AnyLanguage::Spanish(l) => l.get_word(tu, x),
            AnyLanguage::Swedish(l) => l.get_word(tu, x),
            AnyLanguage::Thai(l) => l.get_word(tu, x),
            AnyLanguage::Turkish(l) => l.get_word(tu, x),
            AnyLanguage::Ukrainian(l) => l.get_word(tu, x),
        }
    }

    fn layout(&self, x: u64) -> Layout {
        match self {
            AnyLanguage::Basque(l) => l.layout(x),
            AnyLanguage::Belarusian(l) => l.layout(x),
            AnyLanguage::Chinese(l) => l.layout(x),
            AnyLanguage::Danish(l) => l.layout(x),
            AnyLanguage::English(l) => l.layout(x),
            AnyLanguage::French(l) => l.layout(x),
            AnyLanguage::German(l) => l.layout(x),
            AnyLanguage::Italian(l) => l.layout(x),
            AnyLanguage::Japanese(l) => l.layout(x),
            AnyLanguage::Korean(l) => l.layout(x),
            AnyLanguage::Polish(l) => l.layout(x),
            AnyLanguage::Portuguese(l) => l.layout(x),
            AnyLanguage::Romanian(l) => l.layout(x),
            AnyLanguage::Russian(l) => l.layout(x),
            AnyLanguage::Spanish(l) => l.layout(x),
            AnyLanguage::Swedish(l) => l.layout(x),
            AnyLanguage::Thai(l) => l.layout(x),
            AnyLanguage::Turkish(l) => l.layout(x),
            AnyLanguage::Ukrainian(l) => l.layout(x),
        }
    }
}
