//! The digits of numbering systems, from 0 to 9.
// Written by tools/dates from Unicode CLDR 48. Do not edit.

pub(crate) const LATN: [char; 10] = ['0', '1', '2', '3', '4', '5', '6', '7', '8', '9'];

pub(crate) const ARAB: [char; 10] = [
    '\u{660}', '\u{661}', '\u{662}', '\u{663}', '\u{664}', '\u{665}', '\u{666}', '\u{667}',
    '\u{668}', '\u{669}',
];

pub(crate) const ARABEXT: [char; 10] = ['۰', '۱', '۲', '۳', '۴', '۵', '۶', '۷', '۸', '۹'];

pub(crate) const NKOO: [char; 10] = [
    '\u{7c0}', '\u{7c1}', '\u{7c2}', '\u{7c3}', '\u{7c4}', '\u{7c5}', '\u{7c6}', '\u{7c7}',
    '\u{7c8}', '\u{7c9}',
];

pub(crate) const DEVA: [char; 10] = ['०', '१', '२', '३', '४', '५', '६', '७', '८', '९'];

pub(crate) const BENG: [char; 10] = ['০', '১', '২', '৩', '৪', '৫', '৬', '৭', '৮', '৯'];

pub(crate) const TIBT: [char; 10] = ['༠', '༡', '༢', '༣', '༤', '༥', '༦', '༧', '༨', '༩'];

pub(crate) const MYMR: [char; 10] = ['၀', '၁', '၂', '၃', '၄', '၅', '၆', '၇', '၈', '၉'];

pub(crate) const OLCK: [char; 10] = ['᱐', '᱑', '᱒', '᱓', '᱔', '᱕', '᱖', '᱗', '᱘', '᱙'];

pub(crate) const CAKM: [char; 10] = ['𑄶', '𑄷', '𑄸', '𑄹', '𑄺', '𑄻', '𑄼', '𑄽', '𑄾', '𑄿'];

pub(crate) const ADLM: [char; 10] = [
    '\u{1e950}',
    '\u{1e951}',
    '\u{1e952}',
    '\u{1e953}',
    '\u{1e954}',
    '\u{1e955}',
    '\u{1e956}',
    '\u{1e957}',
    '\u{1e958}',
    '\u{1e959}',
];
