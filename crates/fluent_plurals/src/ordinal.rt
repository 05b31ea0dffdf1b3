//! The rules for places in an order. Each set is named after one of its languages.
// Written by tools/plurals from the plural rules of Unicode CLDR 48. Do not edit.
ghost use Rattle.std.specs.Prelude.{◌≡◌};
ghost use Rattle.fluent_plurals.specs.Conditions.{category_by};
ghost use Rattle.fluent_plurals.specs.Ordinal as rules;

use fluent_number::{PluralCategory, PluralOperands};

/// The rules of `sv`.
///
/// - `one`: `n % 10 = 1,2 and n % 100 != 11,12`
pub(crate) fn sv(o: &PluralOperands) -> PluralCategory
    ensures { result ≡ category_by rules.sv o.now }
{
    if o.n.fraction() != 0 {
        return PluralCategory::OTHER;
    }
    let n = o.n.whole();
    if matches!(n % 10, 1 | 2) && !matches!(n % 100, 11 | 12) {
        PluralCategory::ONE
    } else {
        PluralCategory::OTHER
    }
}

/// The rules of `bal`, `fil`, `fr`, `ga`, `hy`, `lo`, `mo`, `ms`, `ro`, `tl`, `vi`.
///
/// - `one`: `n = 1`
pub(crate) fn fr(o: &PluralOperands) -> PluralCategory
    ensures { result ≡ category_by rules.fr o.now }
{
    if o.n.fraction() != 0 {
        return PluralCategory::OTHER;
    }
    let n = o.n.whole();
    if n == 1 {
        PluralCategory::ONE
    } else {
        PluralCategory::OTHER
    }
}

/// The rules of `hu`.
///
/// - `one`: `n = 1,5`
pub(crate) fn hu(o: &PluralOperands) -> PluralCategory
    ensures { result ≡ category_by rules.hu o.now }
{
    if o.n.fraction() != 0 {
        return PluralCategory::OTHER;
    }
    let n = o.n.whole();
    if matches!(n, 1 | 5) {
        PluralCategory::ONE
    } else {
        PluralCategory::OTHER
    }
}

/// The rules of `ne`.
///
/// - `one`: `n = 1..4`
pub(crate) fn ne(o: &PluralOperands) -> PluralCategory
    ensures { result ≡ category_by rules.ne o.now }
{
    if o.n.fraction() != 0 {
        return PluralCategory::OTHER;
    }
    let n = o.n.whole();
    if matches!(n, 1..=4) {
        PluralCategory::ONE
    } else {
        PluralCategory::OTHER
    }
}

/// The rules of `be`.
///
/// - `few`: `n % 10 = 2,3 and n % 100 != 12,13`
pub(crate) fn be(o: &PluralOperands) -> PluralCategory
    ensures { result ≡ category_by rules.be o.now }
{
    if o.n.fraction() != 0 {
        return PluralCategory::OTHER;
    }
    let n = o.n.whole();
    if matches!(n % 10, 2 | 3) && !matches!(n % 100, 12 | 13) {
        PluralCategory::FEW
    } else {
        PluralCategory::OTHER
    }
}

/// The rules of `uk`.
///
/// - `few`: `n % 10 = 3 and n % 100 != 13`
pub(crate) fn uk(o: &PluralOperands) -> PluralCategory
    ensures { result ≡ category_by rules.uk o.now }
{
    if o.n.fraction() != 0 {
        return PluralCategory::OTHER;
    }
    let n = o.n.whole();
    if n % 10 == 3 && n % 100 != 13 {
        PluralCategory::FEW
    } else {
        PluralCategory::OTHER
    }
}

/// The rules of `tk`.
///
/// - `few`: `n % 10 = 6,9 or n = 10`
pub(crate) fn tk(o: &PluralOperands) -> PluralCategory
    ensures { result ≡ category_by rules.tk o.now }
{
    if o.n.fraction() != 0 {
        return PluralCategory::OTHER;
    }
    let n = o.n.whole();
    if matches!(n % 10, 6 | 9) || n == 10 {
        PluralCategory::FEW
    } else {
        PluralCategory::OTHER
    }
}

/// The rules of `kk`.
///
/// - `many`: `n % 10 = 6 or n % 10 = 9 or n % 10 = 0 and n != 0`
pub(crate) fn kk(o: &PluralOperands) -> PluralCategory
    ensures { result ≡ category_by rules.kk o.now }
{
    if o.n.fraction() != 0 {
        return PluralCategory::OTHER;
    }
    let n = o.n.whole();
    if n % 10 == 6 || n % 10 == 9 || n % 10 == 0 && n != 0 {
        PluralCategory::MANY
    } else {
        PluralCategory::OTHER
    }
}

/// The rules of `it`, `lld`, `sc`, `vec`.
///
/// - `many`: `n = 11,8,80,800`
pub(crate) fn it(o: &PluralOperands) -> PluralCategory
    ensures { result ≡ category_by rules.it o.now }
{
    if o.n.fraction() != 0 {
        return PluralCategory::OTHER;
    }
    let n = o.n.whole();
    if matches!(n, 11 | 8 | 80 | 800) {
        PluralCategory::MANY
    } else {
        PluralCategory::OTHER
    }
}

/// The rules of `lij`, `scn`.
///
/// - `many`: `n = 11,8,80..89,800..899`
pub(crate) fn lij(o: &PluralOperands) -> PluralCategory
    ensures { result ≡ category_by rules.lij o.now }
{
    if o.n.fraction() != 0 {
        return PluralCategory::OTHER;
    }
    let n = o.n.whole();
    if matches!(n, 11 | 8 | 80..=89 | 800..=899) {
        PluralCategory::MANY
    } else {
        PluralCategory::OTHER
    }
}

/// The rules of `ka`.
///
/// - `one`: `i = 1`
/// - `many`: `i = 0 or i % 100 = 2..20,40,60,80`
pub(crate) fn ka(o: &PluralOperands) -> PluralCategory
    ensures { result ≡ category_by rules.ka o.now }
{
    if o.i == 1 {
        PluralCategory::ONE
    } else if o.i == 0 || matches!(o.i % 100, 2..=20 | 40 | 60 | 80) {
        PluralCategory::MANY
    } else {
        PluralCategory::OTHER
    }
}

/// The rules of `sq`.
///
/// - `one`: `n = 1`
/// - `many`: `n % 10 = 4 and n % 100 != 14`
pub(crate) fn sq(o: &PluralOperands) -> PluralCategory
    ensures { result ≡ category_by rules.sq o.now }
{
    if o.n.fraction() != 0 {
        return PluralCategory::OTHER;
    }
    let n = o.n.whole();
    if n == 1 {
        PluralCategory::ONE
    } else if n % 10 == 4 && n % 100 != 14 {
        PluralCategory::MANY
    } else {
        PluralCategory::OTHER
    }
}

/// The rules of `kw`.
///
/// - `one`: `n = 1..4 or n % 100 = 1..4,21..24,41..44,61..64,81..84`
/// - `many`: `n = 5 or n % 100 = 5`
pub(crate) fn kw(o: &PluralOperands) -> PluralCategory
    ensures { result ≡ category_by rules.kw o.now }
{
    if o.n.fraction() != 0 {
        return PluralCategory::OTHER;
    }
    let n = o.n.whole();
    if matches!(n, 1..=4) || matches!(n % 100, 1..=4 | 21..=24 | 41..=44 | 61..=64 | 81..=84) {
        PluralCategory::ONE
    } else if n == 5 || n % 100 == 5 {
        PluralCategory::MANY
    } else {
        PluralCategory::OTHER
    }
}

/// The rules of `blo`.
///
/// - `zero`: `i = 0`
/// - `one`: `i = 1`
/// - `few`: `i = 2,3,4,5,6`
pub(crate) fn blo(o: &PluralOperands) -> PluralCategory
    ensures { result ≡ category_by rules.blo o.now }
{
    if o.i == 0 {
        PluralCategory::ZERO
    } else if o.i == 1 {
        PluralCategory::ONE
    } else if matches!(o.i, 2 | 3 | 4 | 5 | 6) {
        PluralCategory::FEW
    } else {
        PluralCategory::OTHER
    }
}

/// The rules of `en`.
///
/// - `one`: `n % 10 = 1 and n % 100 != 11`
/// - `two`: `n % 10 = 2 and n % 100 != 12`
/// - `few`: `n % 10 = 3 and n % 100 != 13`
pub(crate) fn en(o: &PluralOperands) -> PluralCategory
    ensures { result ≡ category_by rules.en o.now }
{
    if o.n.fraction() != 0 {
        return PluralCategory::OTHER;
    }
    let n = o.n.whole();
    if n % 10 == 1 && n % 100 != 11 {
        PluralCategory::ONE
    } else if n % 10 == 2 && n % 100 != 12 {
        PluralCategory::TWO
    } else if n % 10 == 3 && n % 100 != 13 {
        PluralCategory::FEW
    } else {
        PluralCategory::OTHER
    }
}

/// The rules of `kok`, `kok-Latn`, `mr`.
///
/// - `one`: `n = 1`
/// - `two`: `n = 2,3`
/// - `few`: `n = 4`
pub(crate) fn kok(o: &PluralOperands) -> PluralCategory
    ensures { result ≡ category_by rules.kok o.now }
{
    if o.n.fraction() != 0 {
        return PluralCategory::OTHER;
    }
    let n = o.n.whole();
    if n == 1 {
        PluralCategory::ONE
    } else if matches!(n, 2 | 3) {
        PluralCategory::TWO
    } else if n == 4 {
        PluralCategory::FEW
    } else {
        PluralCategory::OTHER
    }
}

/// The rules of `gd`.
///
/// - `one`: `n = 1,11`
/// - `two`: `n = 2,12`
/// - `few`: `n = 3,13`
pub(crate) fn gd(o: &PluralOperands) -> PluralCategory
    ensures { result ≡ category_by rules.gd o.now }
{
    if o.n.fraction() != 0 {
        return PluralCategory::OTHER;
    }
    let n = o.n.whole();
    if matches!(n, 1 | 11) {
        PluralCategory::ONE
    } else if matches!(n, 2 | 12) {
        PluralCategory::TWO
    } else if matches!(n, 3 | 13) {
        PluralCategory::FEW
    } else {
        PluralCategory::OTHER
    }
}

/// The rules of `ca`.
///
/// - `one`: `n = 1,3`
/// - `two`: `n = 2`
/// - `few`: `n = 4`
pub(crate) fn ca(o: &PluralOperands) -> PluralCategory
    ensures { result ≡ category_by rules.ca o.now }
{
    if o.n.fraction() != 0 {
        return PluralCategory::OTHER;
    }
    let n = o.n.whole();
    if matches!(n, 1 | 3) {
        PluralCategory::ONE
    } else if n == 2 {
        PluralCategory::TWO
    } else if n == 4 {
        PluralCategory::FEW
    } else {
        PluralCategory::OTHER
    }
}

/// The rules of `mk`.
///
/// - `one`: `i % 10 = 1 and i % 100 != 11`
/// - `two`: `i % 10 = 2 and i % 100 != 12`
/// - `many`: `i % 10 = 7,8 and i % 100 != 17,18`
pub(crate) fn mk(o: &PluralOperands) -> PluralCategory
    ensures { result ≡ category_by rules.mk o.now }
{
    if o.i % 10 == 1 && o.i % 100 != 11 {
        PluralCategory::ONE
    } else if o.i % 10 == 2 && o.i % 100 != 12 {
        PluralCategory::TWO
    } else if matches!(o.i % 10, 7 | 8) && !matches!(o.i % 100, 17 | 18) {
        PluralCategory::MANY
    } else {
        PluralCategory::OTHER
    }
}

/// The rules of `az`.
///
/// - `one`: `i % 10 = 1,2,5,7,8 or i % 100 = 20,50,70,80`
/// - `few`: `i % 10 = 3,4 or i % 1000 = 100,200,300,400,500,600,700,800,900`
/// - `many`: `i = 0 or i % 10 = 6 or i % 100 = 40,60,90`
pub(crate) fn az(o: &PluralOperands) -> PluralCategory
    ensures { result ≡ category_by rules.az o.now }
{
    if matches!(o.i % 10, 1 | 2 | 5 | 7 | 8) || matches!(o.i % 100, 20 | 50 | 70 | 80) {
        PluralCategory::ONE
    } else if matches!(o.i % 10, 3 | 4)
        || matches!(
            o.i % 1000,
            100 | 200 | 300 | 400 | 500 | 600 | 700 | 800 | 900
        )
    {
        PluralCategory::FEW
    } else if o.i == 0 || o.i % 10 == 6 || matches!(o.i % 100, 40 | 60 | 90) {
        PluralCategory::MANY
    } else {
        PluralCategory::OTHER
    }
}

/// The rules of `gu`, `hi`.
///
/// - `one`: `n = 1`
/// - `two`: `n = 2,3`
/// - `few`: `n = 4`
/// - `many`: `n = 6`
pub(crate) fn hi(o: &PluralOperands) -> PluralCategory
    ensures { result ≡ category_by rules.hi o.now }
{
    if o.n.fraction() != 0 {
        return PluralCategory::OTHER;
    }
    let n = o.n.whole();
    if n == 1 {
        PluralCategory::ONE
    } else if matches!(n, 2 | 3) {
        PluralCategory::TWO
    } else if n == 4 {
        PluralCategory::FEW
    } else if n == 6 {
        PluralCategory::MANY
    } else {
        PluralCategory::OTHER
    }
}

/// The rules of `as`, `bn`.
///
/// - `one`: `n = 1,5,7,8,9,10`
/// - `two`: `n = 2,3`
/// - `few`: `n = 4`
/// - `many`: `n = 6`
pub(crate) fn bn(o: &PluralOperands) -> PluralCategory
    ensures { result ≡ category_by rules.bn o.now }
{
    if o.n.fraction() != 0 {
        return PluralCategory::OTHER;
    }
    let n = o.n.whole();
    if matches!(n, 1 | 5 | 7 | 8 | 9 | 10) {
        PluralCategory::ONE
    } else if matches!(n, 2 | 3) {
        PluralCategory::TWO
    } else if n == 4 {
        PluralCategory::FEW
    } else if n == 6 {
        PluralCategory::MANY
    } else {
        PluralCategory::OTHER
    }
}

/// The rules of `or`.
///
/// - `one`: `n = 1,5,7..9`
/// - `two`: `n = 2,3`
/// - `few`: `n = 4`
/// - `many`: `n = 6`
pub(crate) fn or(o: &PluralOperands) -> PluralCategory
    ensures { result ≡ category_by rules.or o.now }
{
    if o.n.fraction() != 0 {
        return PluralCategory::OTHER;
    }
    let n = o.n.whole();
    if matches!(n, 1 | 5 | 7..=9) {
        PluralCategory::ONE
    } else if matches!(n, 2 | 3) {
        PluralCategory::TWO
    } else if n == 4 {
        PluralCategory::FEW
    } else if n == 6 {
        PluralCategory::MANY
    } else {
        PluralCategory::OTHER
    }
}

/// The rules of `cy`.
///
/// - `zero`: `n = 0,7,8,9`
/// - `one`: `n = 1`
/// - `two`: `n = 2`
/// - `few`: `n = 3,4`
/// - `many`: `n = 5,6`
pub(crate) fn cy(o: &PluralOperands) -> PluralCategory
    ensures { result ≡ category_by rules.cy o.now }
{
    if o.n.fraction() != 0 {
        return PluralCategory::OTHER;
    }
    let n = o.n.whole();
    if matches!(n, 0 | 7 | 8 | 9) {
        PluralCategory::ZERO
    } else if n == 1 {
        PluralCategory::ONE
    } else if n == 2 {
        PluralCategory::TWO
    } else if matches!(n, 3 | 4) {
        PluralCategory::FEW
    } else if matches!(n, 5 | 6) {
        PluralCategory::MANY
    } else {
        PluralCategory::OTHER
    }
}
