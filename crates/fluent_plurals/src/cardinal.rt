//! The rules for counts. Each set is named after one of its languages.
// Written by tools/plurals from the plural rules of Unicode CLDR 48. Do not edit.
ghost use Rattle.std.specs.Prelude.{◌≡◌};
ghost use Rattle.fluent_plurals.specs.Conditions.{category_by, holds};
ghost use Rattle.fluent_plurals.specs.Cardinal as rules;

use fluent_number::{PluralCategory, PluralOperands};

/// The rules of `am`, `as`, `bn`, `doi`, `fa`, `gu`, `hi`, `kn`, `kok`, `kok-Latn`, `pcm`, `zu`.
///
/// - `one`: `i = 0 or n = 1`
pub(crate) fn hi(o: &PluralOperands) -> PluralCategory
    ensures { result ≡ category_by rules.hi o.now }
{
    let whole = o.n.fraction() == 0;
    let n = o.n.whole();
    if o.i == 0 || whole && n == 1 {
        PluralCategory::ONE
    } else {
        PluralCategory::OTHER
    }
}

/// The rules of `ff`, `hy`, `kab`.
///
/// - `one`: `i = 0,1`
pub(crate) fn ff(o: &PluralOperands) -> PluralCategory
    ensures { result ≡ category_by rules.ff o.now }
{
    if matches!(o.i, 0 | 1) {
        PluralCategory::ONE
    } else {
        PluralCategory::OTHER
    }
}

/// The rules of `ast`, `de`, `en`, `et`, `fi`, `fy`, `gl`, `ia`, `ie`, `io`, `ji`, `lij`, `nl`, `sc`, `sv`,
/// `sw`, `ur`, `yi`.
///
/// - `one`: `i = 1 and v = 0`
pub(crate) fn en(o: &PluralOperands) -> PluralCategory
    ensures { result ≡ category_by rules.en o.now }
{
    if o.i == 1 && o.v == 0 {
        PluralCategory::ONE
    } else {
        PluralCategory::OTHER
    }
}

/// The rules of `si`.
///
/// - `one`: `n = 0,1 or i = 0 and f = 1`
pub(crate) fn si(o: &PluralOperands) -> PluralCategory
    ensures { result ≡ category_by rules.si o.now }
{
    let whole = o.n.fraction() == 0;
    let n = o.n.whole();
    if whole && matches!(n, 0 | 1) || o.i == 0 && o.f == 1 {
        PluralCategory::ONE
    } else {
        PluralCategory::OTHER
    }
}

/// The rules of `ak`, `bho`, `csw`, `guw`, `ln`, `mg`, `nso`, `pa`, `ti`, `wa`.
///
/// - `one`: `n = 0..1`
pub(crate) fn pa(o: &PluralOperands) -> PluralCategory
    ensures { result ≡ category_by rules.pa o.now }
{
    if o.n.fraction() != 0 {
        return PluralCategory::OTHER;
    }
    let n = o.n.whole();
    if matches!(n, 0..=1) {
        PluralCategory::ONE
    } else {
        PluralCategory::OTHER
    }
}

/// The rules of `tzm`.
///
/// - `one`: `n = 0..1 or n = 11..99`
pub(crate) fn tzm(o: &PluralOperands) -> PluralCategory
    ensures { result ≡ category_by rules.tzm o.now }
{
    if o.n.fraction() != 0 {
        return PluralCategory::OTHER;
    }
    let n = o.n.whole();
    if matches!(n, 0..=1) || matches!(n, 11..=99) {
        PluralCategory::ONE
    } else {
        PluralCategory::OTHER
    }
}

/// The rules of `af`, `an`, `asa`, `az`, `bal`, `bem`, `bez`, `bg`, `brx`, `ce`, `cgg`, `chr`, `ckb`, `dv`,
/// `ee`, `el`, `eo`, `eu`, `fo`, `fur`, `gsw`, `ha`, `haw`, `hu`, `jgo`, `jmc`, `ka`, `kaj`, `kcg`, `kk`,
/// `kkj`, `kl`, `ks`, `ksb`, `ku`, `ky`, `lb`, `lg`, `mas`, `mgo`, `ml`, `mn`, `mr`, `nah`, `nb`, `nd`, `ne`,
/// `nn`, `nnh`, `no`, `nr`, `ny`, `nyn`, `om`, `or`, `os`, `pap`, `ps`, `rm`, `rof`, `rwk`, `saq`, `sd`,
/// `sdh`, `seh`, `sn`, `so`, `sq`, `ss`, `ssy`, `st`, `syr`, `ta`, `te`, `teo`, `tig`, `tk`, `tn`, `tr`,
/// `ts`, `ug`, `uz`, `ve`, `vo`, `vun`, `wae`, `xh`, `xog`.
///
/// - `one`: `n = 1`
pub(crate) fn tr(o: &PluralOperands) -> PluralCategory
    ensures { result ≡ category_by rules.tr o.now }
{
    if o.n.fraction() != 0 {
        return PluralCategory::OTHER;
    }
    let n = o.n.whole();
    if n == 1 {
        PluralCategory::ONE
    } else {
        PluralCategory::OTHER
    }
}

/// The rules of `da`.
///
/// - `one`: `n = 1 or t != 0 and i = 0,1`
pub(crate) fn da(o: &PluralOperands) -> PluralCategory
    ensures { result ≡ category_by rules.da o.now }
{
    let whole = o.n.fraction() == 0;
    let n = o.n.whole();
    if whole && n == 1 || o.t != 0 && matches!(o.i, 0 | 1) {
        PluralCategory::ONE
    } else {
        PluralCategory::OTHER
    }
}

/// The rules of `is`.
///
/// - `one`: `t = 0 and i % 10 = 1 and i % 100 != 11 or t % 10 = 1 and t % 100 != 11`
pub(crate) fn is(o: &PluralOperands) -> PluralCategory
    ensures { result ≡ category_by rules.is o.now }
{
    if o.t == 0 && o.i % 10 == 1 && o.i % 100 != 11 || o.t % 10 == 1 && o.t % 100 != 11 {
        PluralCategory::ONE
    } else {
        PluralCategory::OTHER
    }
}

/// The rules of `mk`.
///
/// - `one`: `v = 0 and i % 10 = 1 and i % 100 != 11 or f % 10 = 1 and f % 100 != 11`
pub(crate) fn mk(o: &PluralOperands) -> PluralCategory
    ensures { result ≡ category_by rules.mk o.now }
{
    if o.v == 0 && o.i % 10 == 1 && o.i % 100 != 11 || o.f % 10 == 1 && o.f % 100 != 11 {
        PluralCategory::ONE
    } else {
        PluralCategory::OTHER
    }
}

/// The rules of `ceb`, `fil`, `tl`.
///
/// - `one`: `v = 0 and i = 1,2,3 or v = 0 and i % 10 != 4,6,9 or v != 0 and f % 10 != 4,6,9`
pub(crate) fn ceb(o: &PluralOperands) -> PluralCategory
    ensures { result ≡ category_by rules.ceb o.now }
{
    if o.v == 0 && matches!(o.i, 1 | 2 | 3)
        || o.v == 0 && !matches!(o.i % 10, 4 | 6 | 9)
        || o.v != 0 && !matches!(o.f % 10, 4 | 6 | 9)
    {
        PluralCategory::ONE
    } else {
        PluralCategory::OTHER
    }
}

/// The rules of `lv`, `prg`.
///
/// - `zero`: `n % 10 = 0 or n % 100 = 11..19 or v = 2 and f % 100 = 11..19`
/// - `one`: `n % 10 = 1 and n % 100 != 11 or v = 2 and f % 10 = 1 and f % 100 != 11 or v != 2 and f % 10 = 1`
pub(crate) fn lv(o: &PluralOperands) -> PluralCategory
    ensures { result ≡ category_by rules.lv o.now }
{
    if lv_zero(o) {
        PluralCategory::ZERO
    } else if lv_one(o) {
        PluralCategory::ONE
    } else {
        PluralCategory::OTHER
    }
}

/// `n % 10 = 0 or n % 100 = 11..19 or v = 2 and f % 100 = 11..19`
fn lv_zero(o: &PluralOperands) -> bool
    ensures { result ≡ holds rules.lv_zero o.now }
{
    let whole = o.n.fraction() == 0;
    let n = o.n.whole();
    whole && n % 10 == 0
        || whole && matches!(n % 100, 11..=19)
        || o.v == 2 && matches!(o.f % 100, 11..=19)
}

/// `n % 10 = 1 and n % 100 != 11 or v = 2 and f % 10 = 1 and f % 100 != 11 or v != 2 and f % 10 = 1`
fn lv_one(o: &PluralOperands) -> bool
    ensures { result ≡ holds rules.lv_one o.now }
{
    let whole = o.n.fraction() == 0;
    let n = o.n.whole();
    whole && n % 10 == 1 && n % 100 != 11
        || o.v == 2 && o.f % 10 == 1 && o.f % 100 != 11
        || o.v != 2 && o.f % 10 == 1
}

/// The rules of `lag`.
///
/// - `zero`: `n = 0`
/// - `one`: `i = 0,1 and n != 0`
pub(crate) fn lag(o: &PluralOperands) -> PluralCategory
    ensures { result ≡ category_by rules.lag o.now }
{
    let whole = o.n.fraction() == 0;
    let n = o.n.whole();
    if whole && n == 0 {
        PluralCategory::ZERO
    } else if matches!(o.i, 0 | 1) && !(whole && n == 0) {
        PluralCategory::ONE
    } else {
        PluralCategory::OTHER
    }
}

/// The rules of `blo`, `cv`, `ksh`.
///
/// - `zero`: `n = 0`
/// - `one`: `n = 1`
pub(crate) fn blo(o: &PluralOperands) -> PluralCategory
    ensures { result ≡ category_by rules.blo o.now }
{
    if o.n.fraction() != 0 {
        return PluralCategory::OTHER;
    }
    let n = o.n.whole();
    if n == 0 {
        PluralCategory::ZERO
    } else if n == 1 {
        PluralCategory::ONE
    } else {
        PluralCategory::OTHER
    }
}

/// The rules of `he`, `iw`.
///
/// - `one`: `i = 1 and v = 0 or i = 0 and v != 0`
/// - `two`: `i = 2 and v = 0`
pub(crate) fn he(o: &PluralOperands) -> PluralCategory
    ensures { result ≡ category_by rules.he o.now }
{
    if o.i == 1 && o.v == 0 || o.i == 0 && o.v != 0 {
        PluralCategory::ONE
    } else if o.i == 2 && o.v == 0 {
        PluralCategory::TWO
    } else {
        PluralCategory::OTHER
    }
}

/// The rules of `iu`, `naq`, `sat`, `se`, `sma`, `smi`, `smj`, `smn`, `sms`.
///
/// - `one`: `n = 1`
/// - `two`: `n = 2`
pub(crate) fn iu(o: &PluralOperands) -> PluralCategory
    ensures { result ≡ category_by rules.iu o.now }
{
    if o.n.fraction() != 0 {
        return PluralCategory::OTHER;
    }
    let n = o.n.whole();
    if n == 1 {
        PluralCategory::ONE
    } else if n == 2 {
        PluralCategory::TWO
    } else {
        PluralCategory::OTHER
    }
}

/// The rules of `shi`.
///
/// - `one`: `i = 0 or n = 1`
/// - `few`: `n = 2..10`
pub(crate) fn shi(o: &PluralOperands) -> PluralCategory
    ensures { result ≡ category_by rules.shi o.now }
{
    let whole = o.n.fraction() == 0;
    let n = o.n.whole();
    if o.i == 0 || whole && n == 1 {
        PluralCategory::ONE
    } else if whole && matches!(n, 2..=10) {
        PluralCategory::FEW
    } else {
        PluralCategory::OTHER
    }
}

/// The rules of `mo`, `ro`.
///
/// - `one`: `i = 1 and v = 0`
/// - `few`: `v != 0 or n = 0 or n != 1 and n % 100 = 1..19`
pub(crate) fn ro(o: &PluralOperands) -> PluralCategory
    ensures { result ≡ category_by rules.ro o.now }
{
    let whole = o.n.fraction() == 0;
    let n = o.n.whole();
    if o.i == 1 && o.v == 0 {
        PluralCategory::ONE
    } else if o.v != 0 || whole && n == 0 || whole && matches!(n % 100, 1..=19) && n != 1 {
        PluralCategory::FEW
    } else {
        PluralCategory::OTHER
    }
}

/// The rules of `bs`, `hr`, `sh`, `sr`.
///
/// - `one`: `v = 0 and i % 10 = 1 and i % 100 != 11 or f % 10 = 1 and f % 100 != 11`
/// - `few`: `v = 0 and i % 10 = 2..4 and i % 100 != 12..14 or f % 10 = 2..4 and f % 100 != 12..14`
pub(crate) fn hr(o: &PluralOperands) -> PluralCategory
    ensures { result ≡ category_by rules.hr o.now }
{
    if hr_one(o) {
        PluralCategory::ONE
    } else if hr_few(o) {
        PluralCategory::FEW
    } else {
        PluralCategory::OTHER
    }
}

/// `v = 0 and i % 10 = 1 and i % 100 != 11 or f % 10 = 1 and f % 100 != 11`
fn hr_one(o: &PluralOperands) -> bool
    ensures { result ≡ holds rules.hr_one o.now }
{
    o.v == 0 && o.i % 10 == 1 && o.i % 100 != 11 || o.f % 10 == 1 && o.f % 100 != 11
}

/// `v = 0 and i % 10 = 2..4 and i % 100 != 12..14 or f % 10 = 2..4 and f % 100 != 12..14`
fn hr_few(o: &PluralOperands) -> bool
    ensures { result ≡ holds rules.hr_few o.now }
{
    o.v == 0 && matches!(o.i % 10, 2..=4) && !matches!(o.i % 100, 12..=14)
        || matches!(o.f % 10, 2..=4) && !matches!(o.f % 100, 12..=14)
}

/// The rules of `fr`.
///
/// - `one`: `i = 0,1`
/// - `many`: `e = 0 and i != 0 and i % 1000000 = 0 and v = 0 or e != 0..5`
pub(crate) fn fr(o: &PluralOperands) -> PluralCategory
    ensures { result ≡ category_by rules.fr o.now }
{
    if matches!(o.i, 0 | 1) {
        PluralCategory::ONE
    } else if o.i != 0 && o.i % 1_000_000 == 0 && o.v == 0 {
        PluralCategory::MANY
    } else {
        PluralCategory::OTHER
    }
}

/// The rules of `pt`.
///
/// - `one`: `i = 0..1`
/// - `many`: `e = 0 and i != 0 and i % 1000000 = 0 and v = 0 or e != 0..5`
pub(crate) fn pt(o: &PluralOperands) -> PluralCategory
    ensures { result ≡ category_by rules.pt o.now }
{
    if matches!(o.i, 0..=1) {
        PluralCategory::ONE
    } else if o.i != 0 && o.i % 1_000_000 == 0 && o.v == 0 {
        PluralCategory::MANY
    } else {
        PluralCategory::OTHER
    }
}

/// The rules of `ca`, `it`, `lld`, `pt-PT`, `scn`, `vec`.
///
/// - `one`: `i = 1 and v = 0`
/// - `many`: `e = 0 and i != 0 and i % 1000000 = 0 and v = 0 or e != 0..5`
pub(crate) fn it(o: &PluralOperands) -> PluralCategory
    ensures { result ≡ category_by rules.it o.now }
{
    if o.i == 1 && o.v == 0 {
        PluralCategory::ONE
    } else if o.i != 0 && o.i % 1_000_000 == 0 && o.v == 0 {
        PluralCategory::MANY
    } else {
        PluralCategory::OTHER
    }
}

/// The rules of `es`.
///
/// - `one`: `n = 1`
/// - `many`: `e = 0 and i != 0 and i % 1000000 = 0 and v = 0 or e != 0..5`
pub(crate) fn es(o: &PluralOperands) -> PluralCategory
    ensures { result ≡ category_by rules.es o.now }
{
    let whole = o.n.fraction() == 0;
    let n = o.n.whole();
    if whole && n == 1 {
        PluralCategory::ONE
    } else if o.i != 0 && o.i % 1_000_000 == 0 && o.v == 0 {
        PluralCategory::MANY
    } else {
        PluralCategory::OTHER
    }
}

/// The rules of `gd`.
///
/// - `one`: `n = 1,11`
/// - `two`: `n = 2,12`
/// - `few`: `n = 3..10,13..19`
pub(crate) fn gd(o: &PluralOperands) -> PluralCategory
    ensures { result ≡ category_by rules.gd o.now }
{
    if o.n.fraction() != 0 {
        return PluralCategory::OTHER;
    }
    let n = o.n.whole();
    if matches!(n, 1 | 11) {
        PluralCategory::ONE
    } else if matches!(n, 2 | 12) {
        PluralCategory::TWO
    } else if matches!(n, 3..=10 | 13..=19) {
        PluralCategory::FEW
    } else {
        PluralCategory::OTHER
    }
}

/// The rules of `sl`.
///
/// - `one`: `v = 0 and i % 100 = 1`
/// - `two`: `v = 0 and i % 100 = 2`
/// - `few`: `v = 0 and i % 100 = 3..4 or v != 0`
pub(crate) fn sl(o: &PluralOperands) -> PluralCategory
    ensures { result ≡ category_by rules.sl o.now }
{
    if o.v == 0 && o.i % 100 == 1 {
        PluralCategory::ONE
    } else if o.v == 0 && o.i % 100 == 2 {
        PluralCategory::TWO
    } else if o.v == 0 && matches!(o.i % 100, 3..=4) || o.v != 0 {
        PluralCategory::FEW
    } else {
        PluralCategory::OTHER
    }
}

/// The rules of `dsb`, `hsb`.
///
/// - `one`: `v = 0 and i % 100 = 1 or f % 100 = 1`
/// - `two`: `v = 0 and i % 100 = 2 or f % 100 = 2`
/// - `few`: `v = 0 and i % 100 = 3..4 or f % 100 = 3..4`
pub(crate) fn dsb(o: &PluralOperands) -> PluralCategory
    ensures { result ≡ category_by rules.dsb o.now }
{
    if o.v == 0 && o.i % 100 == 1 || o.f % 100 == 1 {
        PluralCategory::ONE
    } else if o.v == 0 && o.i % 100 == 2 || o.f % 100 == 2 {
        PluralCategory::TWO
    } else if o.v == 0 && matches!(o.i % 100, 3..=4) || matches!(o.f % 100, 3..=4) {
        PluralCategory::FEW
    } else {
        PluralCategory::OTHER
    }
}

/// The rules of `cs`, `sk`.
///
/// - `one`: `i = 1 and v = 0`
/// - `few`: `i = 2..4 and v = 0`
/// - `many`: `v != 0`
pub(crate) fn cs(o: &PluralOperands) -> PluralCategory
    ensures { result ≡ category_by rules.cs o.now }
{
    if o.i == 1 && o.v == 0 {
        PluralCategory::ONE
    } else if matches!(o.i, 2..=4) && o.v == 0 {
        PluralCategory::FEW
    } else if o.v != 0 {
        PluralCategory::MANY
    } else {
        PluralCategory::OTHER
    }
}

/// The rules of `pl`.
///
/// - `one`: `i = 1 and v = 0`
/// - `few`: `v = 0 and i % 10 = 2..4 and i % 100 != 12..14`
/// - `many`: `v = 0 and i != 1 and i % 10 = 0..1 or v = 0 and i % 10 = 5..9 or v = 0 and i % 100 = 12..14`
pub(crate) fn pl(o: &PluralOperands) -> PluralCategory
    ensures { result ≡ category_by rules.pl o.now }
{
    if o.i == 1 && o.v == 0 {
        PluralCategory::ONE
    } else if o.v == 0 && matches!(o.i % 10, 2..=4) && !matches!(o.i % 100, 12..=14) {
        PluralCategory::FEW
    } else if o.v == 0 && o.i != 1 && matches!(o.i % 10, 0..=1)
        || o.v == 0 && matches!(o.i % 10, 5..=9)
        || o.v == 0 && matches!(o.i % 100, 12..=14)
    {
        PluralCategory::MANY
    } else {
        PluralCategory::OTHER
    }
}

/// The rules of `be`.
///
/// - `one`: `n % 10 = 1 and n % 100 != 11`
/// - `few`: `n % 10 = 2..4 and n % 100 != 12..14`
/// - `many`: `n % 10 = 0 or n % 10 = 5..9 or n % 100 = 11..14`
pub(crate) fn be(o: &PluralOperands) -> PluralCategory
    ensures { result ≡ category_by rules.be o.now }
{
    if o.n.fraction() != 0 {
        return PluralCategory::OTHER;
    }
    let n = o.n.whole();
    if n % 10 == 1 && n % 100 != 11 {
        PluralCategory::ONE
    } else if matches!(n % 10, 2..=4) && !matches!(n % 100, 12..=14) {
        PluralCategory::FEW
    } else if n % 10 == 0 || matches!(n % 10, 5..=9) || matches!(n % 100, 11..=14) {
        PluralCategory::MANY
    } else {
        PluralCategory::OTHER
    }
}

/// The rules of `lt`.
///
/// - `one`: `n % 10 = 1 and n % 100 != 11..19`
/// - `few`: `n % 10 = 2..9 and n % 100 != 11..19`
/// - `many`: `f != 0`
pub(crate) fn lt(o: &PluralOperands) -> PluralCategory
    ensures { result ≡ category_by rules.lt o.now }
{
    let whole = o.n.fraction() == 0;
    let n = o.n.whole();
    if whole && n % 10 == 1 && !matches!(n % 100, 11..=19) {
        PluralCategory::ONE
    } else if whole && matches!(n % 10, 2..=9) && !matches!(n % 100, 11..=19) {
        PluralCategory::FEW
    } else if o.f != 0 {
        PluralCategory::MANY
    } else {
        PluralCategory::OTHER
    }
}

/// The rules of `ru`, `uk`.
///
/// - `one`: `v = 0 and i % 10 = 1 and i % 100 != 11`
/// - `few`: `v = 0 and i % 10 = 2..4 and i % 100 != 12..14`
/// - `many`: `v = 0 and i % 10 = 0 or v = 0 and i % 10 = 5..9 or v = 0 and i % 100 = 11..14`
pub(crate) fn ru(o: &PluralOperands) -> PluralCategory
    ensures { result ≡ category_by rules.ru o.now }
{
    if o.v == 0 && o.i % 10 == 1 && o.i % 100 != 11 {
        PluralCategory::ONE
    } else if o.v == 0 && matches!(o.i % 10, 2..=4) && !matches!(o.i % 100, 12..=14) {
        PluralCategory::FEW
    } else if o.v == 0 && o.i % 10 == 0
        || o.v == 0 && matches!(o.i % 10, 5..=9)
        || o.v == 0 && matches!(o.i % 100, 11..=14)
    {
        PluralCategory::MANY
    } else {
        PluralCategory::OTHER
    }
}

/// The rules of `sgs`.
///
/// - `one`: `n % 10 = 1 and n % 100 != 11`
/// - `two`: `n = 2`
/// - `few`: `n != 2 and n % 10 = 2..9 and n % 100 != 11..19`
/// - `many`: `f != 0`
pub(crate) fn sgs(o: &PluralOperands) -> PluralCategory
    ensures { result ≡ category_by rules.sgs o.now }
{
    let whole = o.n.fraction() == 0;
    let n = o.n.whole();
    if whole && n % 10 == 1 && n % 100 != 11 {
        PluralCategory::ONE
    } else if whole && n == 2 {
        PluralCategory::TWO
    } else if whole && matches!(n % 10, 2..=9) && n != 2 && !matches!(n % 100, 11..=19) {
        PluralCategory::FEW
    } else if o.f != 0 {
        PluralCategory::MANY
    } else {
        PluralCategory::OTHER
    }
}

/// The rules of `br`.
///
/// - `one`: `n % 10 = 1 and n % 100 != 11,71,91`
/// - `two`: `n % 10 = 2 and n % 100 != 12,72,92`
/// - `few`: `n % 10 = 3..4,9 and n % 100 != 10..19,70..79,90..99`
/// - `many`: `n != 0 and n % 1000000 = 0`
pub(crate) fn br(o: &PluralOperands) -> PluralCategory
    ensures { result ≡ category_by rules.br o.now }
{
    if br_one(o) {
        PluralCategory::ONE
    } else if br_two(o) {
        PluralCategory::TWO
    } else if br_few(o) {
        PluralCategory::FEW
    } else if br_many(o) {
        PluralCategory::MANY
    } else {
        PluralCategory::OTHER
    }
}

/// `n % 10 = 1 and n % 100 != 11,71,91`
fn br_one(o: &PluralOperands) -> bool
    ensures { result ≡ holds rules.br_one o.now }
{
    let whole = o.n.fraction() == 0;
    let n = o.n.whole();
    whole && n % 10 == 1 && !matches!(n % 100, 11 | 71 | 91)
}

/// `n % 10 = 2 and n % 100 != 12,72,92`
fn br_two(o: &PluralOperands) -> bool
    ensures { result ≡ holds rules.br_two o.now }
{
    let whole = o.n.fraction() == 0;
    let n = o.n.whole();
    whole && n % 10 == 2 && !matches!(n % 100, 12 | 72 | 92)
}

/// `n % 10 = 3..4,9 and n % 100 != 10..19,70..79,90..99`
fn br_few(o: &PluralOperands) -> bool
    ensures { result ≡ holds rules.br_few o.now }
{
    let whole = o.n.fraction() == 0;
    let n = o.n.whole();
    whole && matches!(n % 10, 3..=4 | 9) && !matches!(n % 100, 10..=19 | 70..=79 | 90..=99)
}

/// `n != 0 and n % 1000000 = 0`
fn br_many(o: &PluralOperands) -> bool
    ensures { result ≡ holds rules.br_many o.now }
{
    let whole = o.n.fraction() == 0;
    let n = o.n.whole();
    whole && n % 1_000_000 == 0 && n != 0
}

/// The rules of `mt`.
///
/// - `one`: `n = 1`
/// - `two`: `n = 2`
/// - `few`: `n = 0 or n % 100 = 3..10`
/// - `many`: `n % 100 = 11..19`
pub(crate) fn mt(o: &PluralOperands) -> PluralCategory
    ensures { result ≡ category_by rules.mt o.now }
{
    if o.n.fraction() != 0 {
        return PluralCategory::OTHER;
    }
    let n = o.n.whole();
    if n == 1 {
        PluralCategory::ONE
    } else if n == 2 {
        PluralCategory::TWO
    } else if n == 0 || matches!(n % 100, 3..=10) {
        PluralCategory::FEW
    } else if matches!(n % 100, 11..=19) {
        PluralCategory::MANY
    } else {
        PluralCategory::OTHER
    }
}

/// The rules of `ga`.
///
/// - `one`: `n = 1`
/// - `two`: `n = 2`
/// - `few`: `n = 3..6`
/// - `many`: `n = 7..10`
pub(crate) fn ga(o: &PluralOperands) -> PluralCategory
    ensures { result ≡ category_by rules.ga o.now }
{
    if o.n.fraction() != 0 {
        return PluralCategory::OTHER;
    }
    let n = o.n.whole();
    if n == 1 {
        PluralCategory::ONE
    } else if n == 2 {
        PluralCategory::TWO
    } else if matches!(n, 3..=6) {
        PluralCategory::FEW
    } else if matches!(n, 7..=10) {
        PluralCategory::MANY
    } else {
        PluralCategory::OTHER
    }
}

/// The rules of `gv`.
///
/// - `one`: `v = 0 and i % 10 = 1`
/// - `two`: `v = 0 and i % 10 = 2`
/// - `few`: `v = 0 and i % 100 = 0,20,40,60,80`
/// - `many`: `v != 0`
pub(crate) fn gv(o: &PluralOperands) -> PluralCategory
    ensures { result ≡ category_by rules.gv o.now }
{
    if o.v == 0 && o.i % 10 == 1 {
        PluralCategory::ONE
    } else if o.v == 0 && o.i % 10 == 2 {
        PluralCategory::TWO
    } else if o.v == 0 && matches!(o.i % 100, 0 | 20 | 40 | 60 | 80) {
        PluralCategory::FEW
    } else if o.v != 0 {
        PluralCategory::MANY
    } else {
        PluralCategory::OTHER
    }
}

/// The rules of `kw`.
///
/// - `zero`: `n = 0`
/// - `one`: `n = 1`
/// - `two`: `n % 100 = 2,22,42,62,82 or n % 1000 = 0 and n % 100000 = 1000..20000,40000,60000,80000 or n != 0 and n % 1000000 = 100000`
/// - `few`: `n % 100 = 3,23,43,63,83`
/// - `many`: `n != 1 and n % 100 = 1,21,41,61,81`
pub(crate) fn kw(o: &PluralOperands) -> PluralCategory
    ensures { result ≡ category_by rules.kw o.now }
{
    if o.n.fraction() != 0 {
        return PluralCategory::OTHER;
    }
    let n = o.n.whole();
    if n == 0 {
        PluralCategory::ZERO
    } else if n == 1 {
        PluralCategory::ONE
    } else if matches!(n % 100, 2 | 22 | 42 | 62 | 82)
        || n % 1000 == 0 && matches!(n % 100_000, 1000..=20_000 | 40_000 | 60_000 | 80_000)
        || n % 1_000_000 == 100_000 && n != 0
    {
        PluralCategory::TWO
    } else if matches!(n % 100, 3 | 23 | 43 | 63 | 83) {
        PluralCategory::FEW
    } else if matches!(n % 100, 1 | 21 | 41 | 61 | 81) && n != 1 {
        PluralCategory::MANY
    } else {
        PluralCategory::OTHER
    }
}

/// The rules of `ar`, `ars`.
///
/// - `zero`: `n = 0`
/// - `one`: `n = 1`
/// - `two`: `n = 2`
/// - `few`: `n % 100 = 3..10`
/// - `many`: `n % 100 = 11..99`
pub(crate) fn ar(o: &PluralOperands) -> PluralCategory
    ensures { result ≡ category_by rules.ar o.now }
{
    if o.n.fraction() != 0 {
        return PluralCategory::OTHER;
    }
    let n = o.n.whole();
    if n == 0 {
        PluralCategory::ZERO
    } else if n == 1 {
        PluralCategory::ONE
    } else if n == 2 {
        PluralCategory::TWO
    } else if matches!(n % 100, 3..=10) {
        PluralCategory::FEW
    } else if matches!(n % 100, 11..=99) {
        PluralCategory::MANY
    } else {
        PluralCategory::OTHER
    }
}

/// The rules of `cy`.
///
/// - `zero`: `n = 0`
/// - `one`: `n = 1`
/// - `two`: `n = 2`
/// - `few`: `n = 3`
/// - `many`: `n = 6`
pub(crate) fn cy(o: &PluralOperands) -> PluralCategory
    ensures { result ≡ category_by rules.cy o.now }
{
    if o.n.fraction() != 0 {
        return PluralCategory::OTHER;
    }
    let n = o.n.whole();
    if n == 0 {
        PluralCategory::ZERO
    } else if n == 1 {
        PluralCategory::ONE
    } else if n == 2 {
        PluralCategory::TWO
    } else if n == 3 {
        PluralCategory::FEW
    } else if n == 6 {
        PluralCategory::MANY
    } else {
        PluralCategory::OTHER
    }
}
