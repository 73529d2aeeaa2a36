ghost use Rattle.std.specs.Prelude.{◌≡◌};
ghost use Rattle.timeago.specs.Codes.{coded_language};

use tongues::AnyLanguage;
use tongues::languages::belarusian::Belarusian;
use tongues::languages::chinese::Chinese;
use tongues::languages::danish::Danish;
use tongues::languages::english::English;
use tongues::languages::french::French;
use tongues::languages::german::German;
use tongues::languages::italian::Italian;
use tongues::languages::japanese::Japanese;
use tongues::languages::korean::Korean;
use tongues::languages::polish::Polish;
use tongues::languages::portuguese::Portuguese;
use tongues::languages::romanian::Romanian;
use tongues::languages::russian::Russian;
use tongues::languages::spanish::Spanish;
use tongues::languages::swedish::Swedish;
use tongues::languages::thai::Thai;
use tongues::languages::turkish::Turkish;
use tongues::languages::ukrainian::Ukrainian;

/// The language of an ISO 639-1 code in lower case, or `None` for any text that is none of the
/// eighteen codes. Basque has no code here.
pub fn from_isolang(code: &str) -> Option<AnyLanguage>
    ensures { result ≡ coded_language code.now }
{
    match code {
        "be" => Some(AnyLanguage::Belarusian(Belarusian)),
        "da" => Some(AnyLanguage::Danish(Danish)),
        "de" => Some(AnyLanguage::German(German)),
        "en" => Some(AnyLanguage::English(English)),
        "es" => Some(AnyLanguage::Spanish(Spanish)),
        "fr" => Some(AnyLanguage::French(French)),
        "it" => Some(AnyLanguage::Italian(Italian)),
        "ja" => Some(AnyLanguage::Japanese(Japanese)),
        "ko" => Some(AnyLanguage::Korean(Korean)),
        "pl" => Some(AnyLanguage::Polish(Polish)),
        "pt" => Some(AnyLanguage::Portuguese(Portuguese)),
        "ro" => Some(AnyLanguage::Romanian(Romanian)),
        "ru" => Some(AnyLanguage::Russian(Russian)),
        "sv" => Some(AnyLanguage::Swedish(Swedish)),
        "th" => Some(AnyLanguage::Thai(Thai)),
        "tr" => Some(AnyLanguage::Turkish(Turkish)),
        "uk" => Some(AnyLanguage::Ukrainian(Ukrainian)),
        "zh" => Some(AnyLanguage::Chinese(Chinese)),
        _ => None,
    }
}
