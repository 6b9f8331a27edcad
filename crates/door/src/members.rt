//! The members that a script can ask of the host, one name each, so that a request says which.

/// A member of the interfaces of the document (DOM and HTML Standards), a function for userscripts
/// (Greasemonkey manual), or the log of the console. A name is the interface and then the member; a
/// setter has `Set` between the two. A member that `Element` and `Document` both have is named once
/// for each.
#[derive(Clone, Copy, Debug, PartialEq, Eq)]
pub enum Member {
    /// `Window.document`.
    WindowDocument,
    /// `Window.window`.
    WindowWindow,
    /// `Window.self`.
    WindowSelf,
    /// `setTimeout`.
    WindowSetTimeout,
    /// `clearTimeout`.
    WindowClearTimeout,
    /// `EventTarget.addEventListener`.
    EventTargetAddEventListener,
    /// `EventTarget.removeEventListener`.
    EventTargetRemoveEventListener,
    /// `EventTarget.dispatchEvent`.
    EventTargetDispatchEvent,
    /// `Node.nodeType`.
    NodeNodeType,
    /// `Node.nodeName`.
    NodeNodeName,
    /// `Node.parentNode`.
    NodeParentNode,
    /// `Node.firstChild`.
    NodeFirstChild,
    /// `Node.lastChild`.
    NodeLastChild,
    /// `Node.previousSibling`.
    NodePreviousSibling,
    /// `Node.nextSibling`.
    NodeNextSibling,
    /// `Node.ownerDocument`.
    NodeOwnerDocument,
    /// `Node.childNodes`.
    NodeChildNodes,
    /// `Node.contains`.
    NodeContains,
    /// `Node.textContent`.
    NodeTextContent,
    /// `Node.textContent=`.
    NodeSetTextContent,
    /// `Node.appendChild`.
    NodeAppendChild,
    /// `Node.insertBefore`.
    NodeInsertBefore,
    /// `Node.removeChild`.
    NodeRemoveChild,
    /// `Node.remove`, which the standard has as `ChildNode.remove`.
    NodeRemove,
    /// `Node.cloneNode`.
    NodeCloneNode,
    /// `Element.tagName`.
    ElementTagName,
    /// `Element.id`.
    ElementId,
    /// `Element.id=`.
    ElementSetId,
    /// `Element.className`.
    ElementClassName,
    /// `Element.className=`.
    ElementSetClassName,
    /// `Element.getAttribute`.
    ElementGetAttribute,
    /// `Element.hasAttribute`.
    ElementHasAttribute,
    /// `Element.setAttribute`.
    ElementSetAttribute,
    /// `Element.removeAttribute`.
    ElementRemoveAttribute,
    /// `Element.children`.
    ElementChildren,
    /// `Element.querySelector`.
    ElementQuerySelector,
    /// `Document.querySelector`.
    DocumentQuerySelector,
    /// `Element.querySelectorAll`.
    ElementQuerySelectorAll,
    /// `Document.querySelectorAll`.
    DocumentQuerySelectorAll,
    /// `Element.getElementsByTagName`.
    ElementGetElementsByTagName,
    /// `Document.getElementsByTagName`.
    DocumentGetElementsByTagName,
    /// `Document.documentElement`.
    DocumentDocumentElement,
    /// `Document.head`.
    DocumentHead,
    /// `Document.body`.
    DocumentBody,
    /// `Document.title`.
    DocumentTitle,
    /// `Document.title=`.
    DocumentSetTitle,
    /// `Document.readyState`.
    DocumentReadyState,
    /// `Document.URL`.
    DocumentUrl,
    /// `Document.createElement`.
    DocumentCreateElement,
    /// `Document.createTextNode`.
    DocumentCreateTextNode,
    /// `Document.createComment`.
    DocumentCreateComment,
    /// `Document.getElementById`.
    DocumentGetElementById,
    /// The constructor `Event`.
    NewEvent,
    /// The constructor `CustomEvent`.
    NewCustomEvent,
    /// `Event.type`.
    EventType,
    /// `Event.target`.
    EventTarget,
    /// `Event.currentTarget`.
    EventCurrentTarget,
    /// `Event.eventPhase`.
    EventEventPhase,
    /// `Event.bubbles`.
    EventBubbles,
    /// `Event.cancelable`.
    EventCancelable,
    /// `Event.defaultPrevented`.
    EventDefaultPrevented,
    /// `Event.isTrusted`.
    EventIsTrusted,
    /// `Event.detail`, which the standard has as `CustomEvent.detail`.
    EventDetail,
    /// `Event.preventDefault`.
    EventPreventDefault,
    /// `Event.stopPropagation`.
    EventStopPropagation,
    /// `Event.stopImmediatePropagation`.
    EventStopImmediatePropagation,
    /// `GM_log`.
    GmLog,
    /// `GM_getValue`.
    GmGetValue,
    /// `GM_setValue`.
    GmSetValue,
    /// `GM_deleteValue`.
    GmDeleteValue,
    /// `GM_listValues`.
    GmListValues,
    /// `console.log`.
    ConsoleLog,
}
