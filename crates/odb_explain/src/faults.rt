// Generated from docs/faults.md by tools/faults.py --write; do not edit.
//! The explanations of all faults, and of the causes by which an event may not come.

/// The explanations in the order of their codes. The first line of each has the code, the name and the places of its fault.
pub const FAULTS: [&str; 60] = [
    r#"F01 TooLong batch outcomes responses events
The document has more than 16,777,216 bytes. It is read into memory as a whole, so there is a limit;
the rest of the input is not read. Split the batch, or give large bodies a request outside of it.
refused: a document of 16,777,217 bytes
accepted: a document of 16,777,216 bytes"#,
    r#"F02 NotJson batch outcomes responses events
The document is not JSON: it is malformed, or not UTF-8, or nested more than 127 levels deep, or it
has a number beyond the range of a float. A byte order mark is not JSON either. Check where the text
was made or cut.
refused: {"requests":[]
accepted: {"requests":[]}"#,
    r#"F03 NotObject batch
The document is JSON, but not an object. A batch is an object with the member requests (OData JSON
Format 4.01, section 19.1). Put the array of requests into such an object.
refused: []
accepted: {"requests":[]}"#,
    r#"F04 NoRequests batch
The object has no member requests, or it is not an array. A batch lists its requests there, even if
there are none (OData JSON Format 4.01, section 19.1). Add the array.
refused: {"requests":null}
accepted: {"requests":[]}"#,
    r#"F05 UnknownMember batch
The object has another member beside requests. It may have only annotations, whose names have an @,
beside it; a member that nobody reads is more likely a mistake (a choice of this product). Drop it, or
make it an annotation.
refused: {"requests":[],"next":1}
accepted: {"requests":[],"@next":1}"#,
    r#"F06 TooMany batch
The batch has more than 10,000 requests, which is the limit of this product. Split the batch.
refused: a batch of 10,001 requests
accepted: a batch of 10,000 requests"#,
    r#"F07 NotPair batch
With --lines, the line of a command over two documents is JSON, but not an array of two. Such a line
holds both documents, [batch, second] (a choice of this product). Write the batch and the second
document as the two elements of an array.
refused: [{"requests":[]}]
accepted: [{"requests":[]},{"outcomes":[]}]"#,
    r#"F10 NotRequestObject /requests/N
The element of requests is not an object. Each request is one (OData JSON Format 4.01, section
19.1). Write the request as an object with id, method and url. No other fault of its form is
reported for such an element.
refused: {"requests":[1]}
accepted: {"requests":[{"id":"1","method":"get","url":"A"}]}"#,
    r#"F11 IfMember /requests/N
The request has the member if, with any value, null too. Its condition is an expression over earlier
responses, which this product does not evaluate; to ignore it would run what must not run. Send
the request in a later batch.
refused: {"requests":[{"id":"1","method":"get","url":"A","if":"true"}]}
accepted: {"requests":[{"id":"1","method":"get","url":"A","if@x":"true"}]}"#,
    r#"F12 UnknownRequestMember /requests/N
The request has a member that the standard does not list and that is not an annotation. It may well
be a misspelled one, as dependson (a choice of this product). Correct the name, or put an @
into it.
refused: {"requests":[{"id":"1","method":"get","url":"A","dependson":[]}]}
accepted: {"requests":[{"id":"1","method":"get","url":"A","dependsOn":[]}]}"#,
    r#"F13 BadId /requests/N
The request has no id, or it is not an identifier: a text of one or more ASCII letters, digits, -,
., _ and ~ (OData ABNF 4.01, request-id). Its response is found by the id, and URLs refer to
it. Give the request such a text.
refused: {"requests":[{"id":"a b","method":"get","url":"A"}]}
accepted: {"requests":[{"id":"a_b","method":"get","url":"A"}]}"#,
    r#"F14 BadMethod /requests/N
The request has no method, or it is not one of delete, get, patch, post and put, in upper or lower
case (OData JSON Format 4.01, section 19.1). Name one of these.
refused: {"requests":[{"id":"1","method":"head","url":"A"}]}
accepted: {"requests":[{"id":"1","method":"GET","url":"A"}]}"#,
    r#"F15 BadUrl /requests/N
The request has no url, or it is not a string (OData JSON Format 4.01, section 19.1). Any string
will do, also a relative path and the empty text.
refused: {"requests":[{"id":"1","method":"get","url":null}]}
accepted: {"requests":[{"id":"1","method":"get","url":""}]}"#,
    r#"F16 BadGroup /requests/N
atomicityGroup is neither null nor an identifier, which has the form of an id (F13). Other requests
refer to the group by this name. Give the group such a name.
refused: {"requests":[{"id":"1","method":"delete","url":"A","atomicityGroup":""}]}
accepted: {"requests":[{"id":"1","method":"delete","url":"A","atomicityGroup":null}]}"#,
    r#"F17 BadDependsOn /requests/N
dependsOn is neither null nor an array in which each element is a string (OData JSON Format 4.01,
section 19.1). Put the names into an array, also a single one.
refused: {"requests":[{"id":"1","method":"get","url":"A","dependsOn":""}]}
accepted: {"requests":[{"id":"1","method":"get","url":"A","dependsOn":[]}]}"#,
    r#"F18 BadHeaders /requests/N
headers is neither null nor an object in which each value is a string (OData JSON Format 4.01,
section 19.1). Write numbers as strings, and repeated headers as one value with commas.
refused: {"requests":[{"id":"1","method":"get","url":"A","headers":{"Age":1}}]}
accepted: {"requests":[{"id":"1","method":"get","url":"A","headers":{"Age":"1"}}]}"#,
    r#"F19 HeaderTwice /requests/N
Two names in headers differ only in the case of ASCII letters. Both name the same field of HTTP
(RFC 9110, section 5.1), and nothing says which value counts. Keep one of them.
refused: {"requests":[{"id":"1","method":"get","url":"A","headers":{"Age":"1","age":"1"}}]}
accepted: {"requests":[{"id":"1","method":"get","url":"A","headers":{"Age":"1"}}]}"#,
    r#"F20 BodyNotAllowed /requests/N
A delete or a get has a body. Only patch, post and put may have one (OData JSON Format 4.01, section
19.1). Drop the body, or use another method.
refused: {"requests":[{"id":"1","method":"get","url":"A","body":1}]}
accepted: {"requests":[{"id":"1","method":"put","url":"A","body":1}]}"#,
    r#"F21 BadBody /requests/N
The body does not suit the header content-type. For a type that begins with text/ it has to be a
string, for any other that is not JSON a string in base64url (OData JSON Format 4.01, section
19.1). It is checked only if the headers can be read. Correct the type, or encode the body.
refused: {"requests":[{"id":"1","method":"put","url":"A","headers":{"content-type":"text/plain"},"body":1}]}
accepted: {"requests":[{"id":"1","method":"put","url":"A","headers":{"content-type":"text/plain"},"body":"1"}]}"#,
    r#"F22 NestedBatch /requests/N
The URL leads to another batch: the last segment of its path, percent-decoded, is $batch. A batch
may not contain a batch (OData Protocol 4.01, section 11.7). Move its requests into this one.
refused: {"requests":[{"id":"1","method":"get","url":"A/$batch"}]}
accepted: {"requests":[{"id":"1","method":"get","url":"A/batch"}]}"#,
    r#"F23 BadReference /requests/N
The URL begins with $, but its first segment is neither one of the reserved names, as $metadata,
nor $ and the id of a request (OData JSON Format 4.01, section 19.2). Write the id alone after
the $, and the rest after a /.
refused: {"requests":[{"id":"1","method":"get","url":"$meta(data)"}]}
accepted: {"requests":[{"id":"1","method":"get","url":"$metadata"}]}"#,
    r#"F30 IdTwice /requests/N
An earlier request has the same id. Names and responses would not say which of the two they mean
(OData JSON Format 4.01, section 19.1). Give each request an id of its own; upper and lower case
differ.
refused: {"requests":[{"id":"1","method":"get","url":"A"},{"id":"1","method":"get","url":"B"}]}
accepted: {"requests":[{"id":"1","method":"get","url":"A"},{"id":"2","method":"get","url":"B"}]}"#,
    r#"F31 IdIsGroup /requests/N
The id of the request is also the name of an atomicity group. A name in dependsOn would mean both
(OData Protocol 4.01, section 11.7). Rename one of them.
refused: {"requests":[{"id":"1","method":"delete","url":"A","atomicityGroup":"1"}]}
accepted: {"requests":[{"id":"1","method":"delete","url":"A","atomicityGroup":"g"}]}"#,
    r#"F32 GroupSplit /requests/N
The group of the request has earlier requests, but the one just before it is not in the group. The
requests of a group follow one another (OData JSON Format 4.01, section 19.1). Move them together.
refused: {"requests":[{"id":"1","method":"delete","url":"A","atomicityGroup":"g"},{"id":"2","method":"get","url":"B"},{"id":"3","method":"delete","url":"C","atomicityGroup":"g"}]}
accepted: {"requests":[{"id":"2","method":"get","url":"B"},{"id":"1","method":"delete","url":"A","atomicityGroup":"g"},{"id":"3","method":"delete","url":"C","atomicityGroup":"g"}]}"#,
    r#"F40 UnknownName /requests/N
A name in dependsOn is neither the id of a request of the batch nor the name of a group (OData JSON
Format 4.01, section 19.1). What it waits for would never come. Correct the name; upper and lower
case differ.
refused: {"requests":[{"id":"a","method":"get","url":"A"},{"id":"2","method":"get","url":"B","dependsOn":["A"]}]}
accepted: {"requests":[{"id":"a","method":"get","url":"A"},{"id":"2","method":"get","url":"B","dependsOn":["a"]}]}"#,
    r#"F41 ForwardName /requests/N
The request depends on itself, on a later request, or on a group that begins later. A name in
dependsOn refers to what comes before (OData JSON Format 4.01, section 19.1). So a cycle is refused,
in any order: requests that depend on each other would never start. Move the request after what it
depends on, or remove a dependency of the cycle.
refused: {"requests":[{"id":"1","method":"get","url":"A","dependsOn":["2"]},{"id":"2","method":"get","url":"B","dependsOn":["1"]}]}
accepted: {"requests":[{"id":"1","method":"get","url":"A"},{"id":"2","method":"get","url":"B","dependsOn":["1"]}]}"#,
    r#"F42 OwnGroup /requests/N
The request depends on its own group. The group succeeds only if all its requests do, so this one
would wait for itself (a choice of this product). Name the requests of the group that it depends on.
refused: {"requests":[{"id":"1","method":"delete","url":"A","atomicityGroup":"g"},{"id":"2","method":"delete","url":"B","atomicityGroup":"g","dependsOn":["g"]}]}
accepted: {"requests":[{"id":"1","method":"delete","url":"A","atomicityGroup":"g"},{"id":"2","method":"delete","url":"B","atomicityGroup":"g","dependsOn":["1"]}]}"#,
    r#"F43 GroupNotListed /requests/N
The request depends on an earlier member of another group, and dependsOn does not list that group.
The member may be undone with its group after it succeeded, so the group has to be waited for (a
choice of this product). Add the group, at any place of the list.
refused: {"requests":[{"id":"1","method":"delete","url":"A","atomicityGroup":"g"},{"id":"2","method":"get","url":"B","dependsOn":["1"]}]}
accepted: {"requests":[{"id":"1","method":"delete","url":"A","atomicityGroup":"g"},{"id":"2","method":"get","url":"B","dependsOn":["1","g"]}]}"#,
    r#"F44 UnknownReference /requests/N
The URL begins with a reference, $ and an id, but no request of the batch has this id; the name of a
group is not an id (OData JSON Format 4.01, section 19.2). Correct the id; upper and lower case
differ.
refused: {"requests":[{"id":"a","method":"post","url":"A"},{"id":"2","method":"get","url":"$A/B","dependsOn":["a"]}]}
accepted: {"requests":[{"id":"a","method":"post","url":"A"},{"id":"2","method":"get","url":"$a/B","dependsOn":["a"]}]}"#,
    r#"F45 ForwardReference /requests/N
The URL refers to the request itself or to a later one, whose result is not known when the request is
sent (OData JSON Format 4.01, section 19.2). So a cycle of URLs that refer to each other is refused,
too. Move the request after the one that it refers to.
refused: {"requests":[{"id":"2","method":"get","url":"$1/B"},{"id":"1","method":"post","url":"A"}]}
accepted: {"requests":[{"id":"1","method":"post","url":"A"},{"id":"2","method":"get","url":"$1/B","dependsOn":["1"]}]}"#,
    r#"F46 ReferenceNotListed /requests/N
The URL refers to an earlier request, and dependsOn lists neither it nor its group (OData JSON Format
4.01, section 19.2). Only inside one group nothing has to be listed (a choice of this product). Add
the id, at any place of the list.
refused: {"requests":[{"id":"1","method":"post","url":"A"},{"id":"2","method":"get","url":"$1/B"}]}
accepted: {"requests":[{"id":"1","method":"post","url":"A"},{"id":"2","method":"get","url":"$1/B","dependsOn":["1"]}]}"#,
    r#"F50 NotWhole /requests/N
A body that would be written has a number that is not whole: with a fraction or an exponent, or outside
of -9223372036854775808 to 18446744073709551615. Of such a number only the nearest float is kept, so
the text would not say the same. In canon it is the body of the request, in a response its answer's.
Write the number as a string, or as an integer.
refused: {"requests":[{"id":"1","method":"put","url":"A","body":1.5}]}
accepted: {"requests":[{"id":"1","method":"put","url":"A","body":"1.5"}]}"#,
    r#"F60 BadOutcomes outcomes /outcomes/N
The document is not an object whose single member outcomes is an array; or an element is not an
object, lacks a string id or a number status, has headers that F18 or F19 refuses, or has
another member, annotations too. A record is made by a program, so anything unknown in it is a
mistake. Give each outcome id and status, and headers and body if there are any.
refused: {"outcomes":[{"id":"1"}]}
accepted: {"outcomes":[{"id":"1","status":200},{"id":"2","status":200}]}"#,
    r#"F61 OutcomeTwice /outcomes/N
An earlier outcome has the same id. A request has one outcome, and nothing says which of the two
counts. Keep one.
refused: {"outcomes":[{"id":"1","status":200},{"id":"1","status":200}]}
accepted: {"outcomes":[{"id":"1","status":200},{"id":"2","status":200}]}"#,
    r#"F62 BadStatus /outcomes/N
The status is not an integer from 200 to 599. What is recorded is the final status of a request, so
1xx is not among them (a choice of this product). Record the final status.
refused: {"outcomes":[{"id":"1","status":199},{"id":"2","status":200}]}
accepted: {"outcomes":[{"id":"1","status":200},{"id":"2","status":200}]}"#,
    r#"F63 NotWhole /outcomes/N /events/N
The body of a recorded outcome or of a reported event has a number that is not whole, as in F50. It
might not be written as it was recorded. Record the number as a string, or as an integer. A report to a
live run is not refused by it: the response repeats the text of its body.
refused: {"outcomes":[{"id":"1","status":200,"body":1.5},{"id":"2","status":200}]}
accepted: {"outcomes":[{"id":"1","status":200,"body":"1.5"},{"id":"2","status":200}]}"#,
    r#"F64 BadEvents events /events/N
The document is not an object whose single member events is an array; or an element is neither a
start, {"start":ID}, nor a report, {"report":ID,"status":S} with S an integer from 0 to 65535
and maybe headers, which F18 and F19 would pass, and a body. ID is a string, and there is no
other member, not even an annotation. Correct the element.
refused: {"events":[{"start":"1","status":200}]}
accepted: {"events":[{"start":"1"},{"report":"1","status":404}]}"#,
    r#"F65 UnknownEvent /events/N
No request of the batch has the id of the event, so the events are not those of this batch. Check
that both files belong together.
refused: {"events":[{"start":"3"}]}
accepted: {"events":[{"start":"1"},{"report":"1","status":404}]}"#,
    r#"F66 Unfinished events
Every event may come, but after the last one the run is not finished: a request is still running, or
one may start. Then there is no response yet. Record the events up to the end.
refused: {"events":[{"start":"1"},{"report":"1","status":200}]}
accepted: {"events":[{"start":"1"},{"report":"1","status":404}]}"#,
    r#"F70 BadResponses responses /responses/N
The document is not an object with an array responses; or an element is not an object, lacks a string
id or an integer status from 100 to 599, or has an atomicityGroup that is neither null nor a
string (OData JSON Format 4.01, section 19.5). Other members are ignored. Check that the document is
the response to a batch.
refused: {"responses":[{"id":"1","status":"200"},{"id":"2","status":200}]}
accepted: {"responses":[{"id":"1","status":200},{"id":"2","status":200}]}"#,
    r#"F71 UnknownResponse /responses/N
No request of the batch has the id of the response. Each response belongs to a request (OData JSON
Format 4.01, section 19.5). The service made it up, or the response is that of another batch.
refused: {"responses":[{"id":"1","status":200},{"id":"2","status":200},{"id":"3","status":200}]}
accepted: {"responses":[{"id":"1","status":200},{"id":"2","status":200}]}"#,
    r#"F72 ResponseTwice /responses/N
An earlier response has the same id. A request is answered once, and nothing says which of the two
counts. The service has to drop one.
refused: {"responses":[{"id":"1","status":200},{"id":"2","status":200},{"id":"2","status":200}]}
accepted: {"responses":[{"id":"1","status":200},{"id":"2","status":200}]}"#,
    r#"F73 ResponseMissing /requests/N
The request has no response. One that was never sent is answered too, with 424 (OData Protocol 4.01,
section 11.7). A service that stops at its first error may leave out the rest (section 8.2.8.3): with
--stop a request without a response is read as answered 424, if a response has a status from 400 to 599.
refused: {"responses":[{"id":"1","status":200}]}
accepted: {"responses":[{"id":"1","status":200},{"id":"2","status":200}]}"#,
    r#"F74 GroupDiffers /requests/N
The response names another atomicity group than its request, or only one of the two names a group.
Without the right group a client does not know what was undone together (OData JSON Format 4.01,
section 19.5). The service has to repeat the group of the request.
refused: {"responses":[{"id":"1","status":200,"atomicityGroup":"g"},{"id":"2","status":200}]}
accepted: {"responses":[{"id":"1","status":200,"atomicityGroup":null},{"id":"2","status":200}]}"#,
    r#"F75 UnsoundSuccess /requests/N
The response is 2xx, but something that its request depends on has a response that is not. Such a
request must not be performed (OData Protocol 4.01, section 11.7). The service ignored dependsOn;
it has to answer 424.
refused: {"responses":[{"id":"1","status":404},{"id":"2","status":200}]}
accepted: {"responses":[{"id":"1","status":404},{"id":"2","status":424}]}"#,
    r#"F76 NotFinal /requests/N
With --strict: the status of the response is below 200. A run ends each request with a final status, from 200 to 599, and 100
to 199 only say that more will come (OData JSON Format 4.01, section 19.5). The service answered too early.
refused: {"responses":[{"id":"1","status":102},{"id":"2","status":424}]}
accepted: {"responses":[{"id":"1","status":202},{"id":"2","status":200}]}"#,
    r#"F77 PartialGroup /requests/N
With --strict: the response is 2xx, and the response to another request of its group is not. A group succeeds or is undone as a
whole (OData JSON Format 4.01, section 19.1), and what is undone is answered 424. The service did not undo the request, or
answered the success that it had before.
refused: 201 and 409 for the two requests of a group
accepted: 424 and 409 for the two requests of a group"#,
    r#"F78 NotStarted /requests/N
With --strict: the response is not 424, and the request cannot have started. Something outside of its group that it depends on
has a response that is not 2xx; or something in its group has one that is neither 2xx nor 424, or cannot have started itself.
With --units it can also start with its group, once all that the group depends on outside of it has a 2xx. Such a request
must not be performed (OData Protocol 4.01, section 11.7): it is answered 424. The service performed it anyway, or answers
another status than 424 for what it skipped.
refused: {"responses":[{"id":"1","status":404},{"id":"2","status":404}]}
accepted: {"responses":[{"id":"1","status":404},{"id":"2","status":424}]}"#,
    r#"F80 NoOutcome /requests/N
The request was started, and the service has no outcome for it; in replay, the record has none with
its id. Requests that are never started need none. Add the outcome to the record.
refused: {"outcomes":[{"id":"1","status":200}]}
accepted: {"outcomes":[{"id":"1","status":404}]}"#,
    r#"F81 Service /requests/N
The service that performs the requests failed at this one, as a connection that broke. Nothing is known
of the request then, so the execution ends there. Repeat it as a whole if that is safe.
refused: a service that returns ServiceFault::Failed
accepted: a service that returns an outcome"#,
    r#"F82 BadStatus /requests/N
The service returned a status below 200 or above 599, which is not the final status of a request.
Correct the service.
refused: a service that returns the status 199
accepted: a service that returns the status 200"#,
    r#"F90 NoLocation /requests/N
The request may be sent again, but its URL refers to one that is not sent again, and the response to that
one records no Location that could take the place of the reference. Send the request by itself.
refused: for the URL $1/Lines, the response {"id":"1","status":201}
accepted: the response {"id":"1","status":201,"headers":{"Location":"Orders(7)"}}"#,
    r#"F91 NoETag /requests/N
The request may be sent again, but its If-Match or If-None-Match refers to an earlier one that is not sent
again, and that one has failed, or its response records no ETag (OData JSON Format 4.01, section 19.3). Send
the request by itself.
refused: for the header "If-Match":"$1", the response {"id":"1","status":200}
accepted: the response {"id":"1","status":200,"headers":{"ETag":"W/\"7\""}}"#,
    r#"S1 AlreadyStarted /events/N
The request was started before, and a request is sent once. Look for the event that was recorded twice.
refused: {"events":[{"start":"1"},{"start":"1"}]}
accepted: {"events":[{"start":"1"},{"report":"1","status":404}]}"#,
    r#"S2 Stopped /events/N
The run has stopped: with --stop once a request has reported 400 to 599 (OData Protocol 4.01,
section 8.2.8.3), or because the caller of a live run has stopped it. Nothing more starts. What is running may still report.
refused: {"events":[{"start":"1"},{"report":"1","status":404},{"start":"2"}]}
accepted: {"events":[{"start":"1"},{"report":"1","status":404}]}"#,
    r#"S3 UnitFailed /events/N
The request, a member of its group, or something that it depends on has failed, so it must not be sent;
it is answered 424 (OData Protocol 4.01, section 11.7).
refused: {"events":[{"start":"1"},{"report":"1","status":404},{"start":"2"}]}
accepted: {"events":[{"start":"1"},{"report":"1","status":404}]}"#,
    r#"S4 Waiting /events/N
Something that the request depends on has not succeeded yet. Waiting names the first such dependency.
Start the request after the 2xx of all of them.
refused: {"events":[{"start":"1"},{"start":"2"}]}
accepted: {"events":[{"start":"1"},{"report":"1","status":200},{"start":"2"},{"report":"2","status":200}]}"#,
    r#"S5 WidthReached /events/N
As many requests are running as the width allows (--width). Wait for a report before the start, or
allow more.
refused: with --width 1 the start of a request while another is running
accepted: with --width 2 the same events"#,
    r#"P1 NotRunning /events/N
The request is not running: it was not started, or it has reported before. A report follows its start,
once.
refused: {"events":[{"report":"1","status":404}]}
accepted: {"events":[{"start":"1"},{"report":"1","status":404}]}"#,
    r#"P2 BadStatus /events/N
The status of the report is below 200 or above 599, which is not the final status of a request. The
request is still running. Record its final status.
refused: {"events":[{"start":"1"},{"report":"1","status":199}]}
accepted: {"events":[{"start":"1"},{"report":"1","status":404}]}"#,
];
